// The stores.
ghost use Rattle.std.specs.Prelude.{◌≡◌};
ghost use Rattle.instruction.specs.Kinds.{store_kind_of};
ghost use Rattle.effect.specs.Operations.{store_size};

use memory::Size;
use opcode::Opcode;

pub fn store_size(op: Opcode) -> Size
    ensures { result ≡ store_size (store_kind_of op) }
{
    match op {
        Opcode::Sh => Size::Half,
        Opcode::Sw => Size::Word,
        Opcode::Sd => Size::Double,
        _ => Size::Byte, // Sb
    }
}
