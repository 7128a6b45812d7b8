// What C calls of the crate `text`, as a static library: each function passes on the one of the same name there, and promises what
// that promises.
#![tactic(auto)]

ghost use Rattle.std.specs.Prelude.{◌≡◌};
ghost use Rattle.printing.specs.Print.{print_told, print_leaves};
ghost use Rattle.programs.specs.Promise.{Assembled, leaves};

use told::Told;

// The words of a text, four bytes each, into the front of `words`. `labels` is room for its labels, three numbers each.
#[unsafe(no_mangle)]
pub extern "C" fn zkir_assemble(text: &[u8], words: &mut [u8], labels: &mut [u64]) -> Told
    ensures { Assembled text.now words.old labels.old (leaves result words.new labels.new) }
{
    text::zkir_assemble(text, words, labels)
}

// The text of words into the front of `text`, a line each.
#[unsafe(no_mangle)]
pub extern "C" fn zkir_print(words: &[u8], text: &mut [u8]) -> Told
    ensures { (result ≡ print_told words.now text.old) × (text.new ≡ print_leaves words.now text.old) }
{
    text::zkir_print(words, text)
}
