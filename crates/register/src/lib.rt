// The hoard register: the calls that others use. Open, step, ask, put, next, catalogue, and records read and written, as steps or
// as fields; the length of a room and the places in it; whether a catalogue's cell is a hoard. Each judges its own input and
// refuses what is bad, or answers 0 where there is no such place; none has a requirement. The theorem about whole runs is
// in specs/OneHistory.antt and proofs/Theorem.antt.
#![tactic(auto)]

pub use catalogue::{Counts, PIECES, STRUCK, catalogue, entered};
pub use checks::Refusal;
pub use command::Limits;
pub use free_slots::asking::ask;
pub use free_slots::putting::put;
pub use layout::{block_place, length_of, server_place};
pub use next_step::next;
pub use record::{Fields, read_fields, read_record, write_fields, write_record};
pub use room::opening::open;
pub use room::stepping::step;
pub use state::{Answer, Sizes, Step, code, number};
