// A call made in buffers, and all that it leaves compared: what was lent to it, and what was not.
use crate::call::{ANSWER_BUFFER, Call, LIST_BUFFER, Lists, MEMORY_BUFFER, Pair, STATE_BUFFER};
use machines::oracle_run;
use std::fmt;

// What differs of what a call leaves.
#[derive(Clone, Copy)]
pub struct Differences {
    code: bool,
    state: bool,
    memory: bool,
    answer: bool,
    lists: bool,
}

impl Differences {
    pub fn any(self) -> bool {
        self.code || self.state || self.memory || self.answer || self.lists
    }
}

impl fmt::Display for Differences {
    fn fmt<W: fmt::Write>(&self, f: &mut fmt::Formatter<W>) -> fmt::Result {
        for (differs, what) in [
            (self.code, "code"),
            (self.state, "state"),
            (self.memory, "memory"),
            (self.answer, "answer"),
            (self.lists, "lists"),
        ] {
            if differs {
                write!(f, " {what}")?;
            }
        }
        Ok(())
    }
}

#[derive(Drop)]
struct Buffers {
    state: [u8; STATE_BUFFER],
    memory: [u8; MEMORY_BUFFER],
    answer: [u8; ANSWER_BUFFER],
}

// The numbers are laid here and not by the library, whose own laying is under test.
fn lay(buffer: &mut [u8], pairs: &[Pair]) {
    let (numbers, _) = buffer.as_chunks_mut::<8>();
    for [at, number] in pairs {
        if let Some(place) = numbers.get_mut(*at as usize) {
            *place = number.to_le_bytes();
        }
    }
}

impl Buffers {
    fn before(call: &Call<'_>) -> Self {
        let mut buffers = Buffers {
            state: [0; STATE_BUFFER],
            memory: [0; MEMORY_BUFFER],
            answer: [255; ANSWER_BUFFER],
        };
        lay(&mut buffers.state, call.state);
        lay(&mut buffers.memory, call.memory);
        buffers
    }

    // An answer of 24 bytes holds code, steps and particular; one of another length isn't written.
    fn after(call: &Call<'_>) -> Self {
        let mut buffers = Buffers::before(call);
        lay(&mut buffers.state, call.state_after);
        lay(&mut buffers.memory, call.memory_after);
        if call.answer_len == 24 {
            let [code, steps, particular] = call.answer;
            lay(
                &mut buffers.answer,
                &[[0, code], [1, steps], [2, particular]],
            );
        }
        buffers
    }
}

// What the call answers, and whether the lists are other than they must be.
#[derive(Clone, Copy)]
struct Replayed {
    code: u64,
    lists_differ: bool,
}

// Entries are zero but for those appended.
fn entries_differ(
    lists: &Lists<'_>,
    values: &[u64; LIST_BUFFER],
    bounds: &[u8; LIST_BUFFER],
    pcs: &[u64; LIST_BUFFER],
) -> bool {
    let mut entries = [[0; 3]; LIST_BUFFER];
    let after = lists.count + lists.appended.len();
    entries[lists.count..after].copy_from_slice(lists.appended);
    (0..LIST_BUFFER).any(|i| [values[i], u64::from(bounds[i]), pcs[i]] != entries[i])
}

// What the host's call does, but with lists lent.
fn run_listed(
    call: &Call<'_>,
    lists: &Lists<'_>,
    state: &mut [u8],
    memory: &mut [u8],
    answer: &mut [u8],
) -> Replayed {
    let mut values = [0; LIST_BUFFER];
    let mut bounds = [0; LIST_BUFFER];
    let mut pcs = [0; LIST_BUFFER];
    let count = oracle_run(
        state,
        memory,
        answer,
        &mut values[..lists.room],
        &mut bounds[..lists.room],
        &mut pcs[..lists.room],
        lists.count,
        call.fuel,
        call.mode,
    );
    Replayed {
        code: memory::bytes::number_at(answer, 0, 8),
        lists_differ: count != lists.count + lists.appended.len()
            || entries_differ(lists, &values, &bounds, &pcs),
    }
}

fn run(call: &Call<'_>, state: &mut [u8], memory: &mut [u8], answer: &mut [u8]) -> Replayed {
    match &call.lists {
        Some(lists) => run_listed(call, lists, state, memory, answer),
        None => Replayed {
            code: host::zkir_run(state, memory, answer, call.fuel, call.mode),
            lists_differ: false,
        },
    }
}

// The call is lent as much of the buffers as it asks for.
pub fn replay(call: &Call<'_>) -> Differences {
    let Buffers {
        mut state,
        mut memory,
        mut answer,
    } = Buffers::before(call);
    let replayed = run(
        call,
        &mut state[..call.state_len],
        &mut memory[..call.memory_len],
        &mut answer[..call.answer_len],
    );
    let after = Buffers::after(call);
    Differences {
        code: replayed.code != call.answer[0],
        state: state != after.state,
        memory: memory != after.memory,
        answer: answer != after.answer,
        lists: replayed.lists_differ,
    }
}
