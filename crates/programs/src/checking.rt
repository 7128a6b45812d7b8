// The first bad line of a text, whose labels are in a table.
ghost use Rattle.std.specs.Prelude.{◌≡◌, ◌<◌, ◌-◌, ◌^◌, eqb};
ghost use Rattle.programs.specs.Programs.{lines_of};
ghost use Rattle.programs.specs.Code.{line_step, check_from};

use crate::Failure;
use crate::spans::{TextLine, text_lines};
use lines::Said;

// One line, where `own` instructions stand before it; line `second` is the first to define a label again. Answers how many stand before
// the next.
fn one_line(
    text: &[u8],
    table: &[u64],
    second: u64,
    line: TextLine<'_>,
    own: u64,
) -> Result<u64, Failure>
    requires { own < 2 ^ 64 - 1 }
    ensures { result ≡ line_step text.now table.now (eqb line.entry.number second) line.entry.number line.entry.bytes.now own }
{
    match lines::line(line.bytes, text, table, own) {
        Said::Blank => Ok(own),
        Said::Name => {
            if line.number == second {
                return Err(Failure::BadLine(line.number));
            }
            Ok(own)
        }
        Said::Word(_) => Ok(own + 1),
        Said::Bad => Err(Failure::BadLine(line.number)),
    }
}

// The number of words, or the first bad line.
pub(crate) fn check(text: &[u8], table: &[u64], second: u64) -> Result<u64, Failure>
    ensures { result ≡ check_from text.now table.now second (lines_of text.now) 1 0 }
{
    let mut own = 0;
    for line in text_lines(text) {
        own = one_line(text, table, second, line, own)?;
    }
    Ok(own)
}
