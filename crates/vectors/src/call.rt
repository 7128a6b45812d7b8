// The call that a line's numbers describe, and what it must leave.
ghost use Rattle.std.specs.Prelude.{◌≤◌, ◌+◌, length, IfSome};

pub const STATE_BUFFER: usize = 408;

pub const MEMORY_BUFFER: usize = 1024;

pub const ANSWER_BUFFER: usize = 32;

pub const LIST_BUFFER: usize = 16;

// An 8-byte number in a buffer: how many stand before it, and the number.
pub type Pair = [u64; 2];

// A value, a bound and a pc.
pub type Entry = [u64; 3];

// The lists that are lent to a run: their length, how many entries are in use, and those that it must append.
#[derive(Clone, Copy)]
pub struct Lists<'a> {
    pub room: usize,
    pub count: usize,
    pub appended: &'a [Entry],
    ghost room_fits: { room ≤ 16 },
    ghost entries_fit: { count + length appended.now ≤ 16 },
}

#[derive(Clone, Copy)]
pub struct Call<'a> {
    pub mode: u64,
    pub fuel: u64,
    // the lengths lent
    pub state_len: usize,
    pub memory_len: usize,
    pub answer_len: usize,
    // what the buffers have before, and what must have changed in them
    pub state: &'a [Pair],
    pub memory: &'a [Pair],
    pub state_after: &'a [Pair],
    pub memory_after: &'a [Pair],
    // the answer's code, steps and particular
    pub answer: [u64; 3],
    pub lists: Option<Lists<'a>>,
    ghost state_fits: { state_len ≤ 408 },
    ghost memory_fits: { memory_len ≤ 1024 },
    ghost answer_fits: { answer_len ≤ 32 },
}

fn at_most(n: u64, most: usize) -> Option<usize>
    ensures { IfSome result (λ n. n ≤ most) }
{
    if n <= most as u64 {
        Some(n as usize)
    } else {
        None
    }
}

// A count of pairs and the pairs, which lie in a buffer of so many bytes, and what is behind them.
fn pairs(line: &[u64], buffer: usize) -> Option<(&[Pair], &[u64])> {
    let (count, rest) = line.split_first()?;
    let numbers = at_most(*count, rest.len() / 2)? * 2;
    let (numbers, rest) = rest.split_at(numbers);
    let (pairs, _) = numbers.as_chunks::<2>();
    if pairs.iter().all(|[at, _]| *at < (buffer / 8) as u64) {
        Some((pairs, rest))
    } else {
        None
    }
}

// A count of entries afterwards and those appended, which end the line. Lists never shrink.
fn read_lists(room: u64, count: u64, line: &[u64]) -> Option<Lists<'_>> {
    let (after, rest) = line.split_first()?;
    let room = at_most(room, LIST_BUFFER)?;
    let after = at_most(*after, LIST_BUFFER)?;
    let count = at_most(count, after)?;
    let (appended, rest) = rest.as_chunks::<3>();
    if rest.is_empty() && appended.len() == after - count {
        Some(Lists {
            room,
            count,
            appended,
        })
    } else {
        None
    }
}

impl<'a> Call<'a> {
    // None where a line is no call, or has more behind one.
    pub fn read(line: &'a [u64]) -> Option<Self> {
        let (head, rest) = line.split_first_chunk::<6>()?;
        let [kind, mode, fuel, state_len, memory_len, answer_len] = *head;
        let (lent, rest) = match kind {
            0 => (None, rest),
            1 => {
                let (lent, rest) = rest.split_first_chunk::<2>()?;
                let [room, count] = *lent;
                (Some((room, count)), rest)
            }
            _ => return None,
        };
        let (state, rest) = pairs(rest, STATE_BUFFER)?;
        let (memory, rest) = pairs(rest, MEMORY_BUFFER)?;
        let (answer, rest) = rest.split_first_chunk::<3>()?;
        let (state_after, rest) = pairs(rest, STATE_BUFFER)?;
        let (memory_after, rest) = pairs(rest, MEMORY_BUFFER)?;
        let lists = match lent {
            Some((room, count)) => Some(read_lists(room, count, rest)?),
            None if rest.is_empty() => None,
            None => return None,
        };
        let call = Call {
            mode,
            fuel,
            state_len: at_most(state_len, STATE_BUFFER)?,
            memory_len: at_most(memory_len, MEMORY_BUFFER)?,
            answer_len: at_most(answer_len, ANSWER_BUFFER)?,
            state,
            memory,
            state_after,
            memory_after,
            answer: *answer,
            lists,
        };
        if call.is_consistent() {
            Some(call)
        } else {
            None
        }
    }

    // An answer that isn't written has neither steps nor particular. A run with lists has a mode, a whole state and a whole answer.
    fn is_consistent(&self) -> bool {
        let [_, steps, particular] = self.answer;
        let is_answered = self.answer_len == 24;
        (is_answered || steps == 0 && particular == 0)
            && (self.lists.is_none() || self.mode <= 1 && self.state_len == 400 && is_answered)
    }
}
