// What C calls of the crate `checkpoint`, as a static library: each function passes on the one of the same name there, and promises what
// that promises.
#![tactic(auto)]

ghost use Rattle.std.specs.Prelude.{◌≡◌};
ghost use Rattle.checkpoint.specs.Calls.{wrote, writing_of, ReadLeaves};

use told::Told;

// The image into the front of `image`, where it fits.
#[unsafe(no_mangle)]
pub extern "C" fn zkir_checkpoint_write(state: &[u8], memory: &[u8], image: &mut [u8]) -> Told
    ensures { wrote result image.new ≡ writing_of state.now memory.now image.old }
{
    checkpoint::zkir_checkpoint_write(state, memory, image)
}

// The state and the memory of an image, where it is one.
#[unsafe(no_mangle)]
pub extern "C" fn zkir_checkpoint_read(image: &[u8], state: &mut [u8], memory: &mut [u8]) -> Told
    ensures { ReadLeaves image.now state.old memory.old result state.new memory.new }
{
    checkpoint::zkir_checkpoint_read(image, state, memory)
}
