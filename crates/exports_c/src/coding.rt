// Decoder and encoder of instructions: `words`.
ghost use Rattle.std.specs.Prelude.{◌≡◌};
ghost use Rattle.opcode.specs.Opcodes.{opcode_number, opcode_in};
ghost use Rattle.words.specs.Words.{decode_in, encode_in};
ghost use Rattle.exports.specs.Triples.{tripled};
ghost use Rattle.exports.specs.Coding.{decoded_triple, encoded_number, given_of};

#[unsafe(no_mangle)]
pub extern "C" fn oracle_decode(answer: &mut [u8], word: u32)
    ensures { answer.new ≡ tripled (decoded_triple (decode_in opcode_number word)) answer.old }
{
    exports::coding::oracle_decode(answer, word);
}

#[unsafe(no_mangle)]
pub extern "C" fn oracle_encode(opcode: u8, a: u8, b: u8, c: u8, imm: u64) -> u64
    ensures { result ≡ encoded_number (encode_in opcode_number (given_of (opcode_in opcode_number opcode) a b c imm)) }
{
    exports::coding::oracle_encode(opcode, a, b, c, imm)
}
