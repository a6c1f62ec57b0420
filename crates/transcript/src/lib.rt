// The lines that the program rehearse prints, one after the other in a lent buffer.
#![tactic(auto)]

ghost use Rattle.std.specs.Prelude.{◌≡◌, ◌+◌, ◌≤◌, ◌++◌, length};
ghost use Rattle.transcript.specs.Text.{digits};
ghost use Rattle.transcript.specs.Lines.{answer_text, step_line, refused_line, server_line, open_line, has_room, Prints, Puts};

use checks::Refusal;
use itoa::write_digits;
use state::Answer;

// The longest line: "server ", " taken ", " skipped ", three numbers of ten digits, and the line's end.
pub const LINE_MAX: usize = 54;

// The text so far, at the start of a buffer. The buffer is lent: no Vec, since memory is fixed, and no array string, which
// would be made anew and moved. Each line goes behind the text, part by part; where the longest line would have no room,
// nothing changes. A line that is made whole first and then copied was tried: a run in a small room takes a quarter longer.
#[derive(Drop)]
pub struct Transcript<'a> {
    pub buffer: &'a mut [u8],
    pub length: usize,
}

impl<'a> Transcript<'a> {
    // No text yet.
    pub fn new(buffer: &'a mut [u8]) -> Transcript<'a>
        ensures same_reference { result.buffer.ghost_name ≡ buffer.entry.ghost_name }
        ensures contents { result.buffer.now ≡ buffer.old }
        ensures empty { result.length ≡ 0 }
    {
        Transcript { buffer, length: 0 }
    }

    // The line of a step: its index, the answer word, the number.
    #[tactic(auto, unfolding(crate::specs::Lines::step_line), using(crate::proofs::LineLaws::room_for))]
    pub fn step_line(&mut self, index: u32, answer: Result<Answer, Refusal>)
        ensures { Prints self.old (step_line index answer) self.new }
    {
        if self.has_room() {
            self.put_number(index);
            self.put_answer(answer);
            self.put("\n");
        }
    }

    // The line of a step that is refused with this number, which may be another than a refusal's.
    #[tactic(auto, unfolding(crate::specs::Lines::refused_line), using(crate::proofs::LineLaws::room_for))]
    pub fn refused_line(&mut self, index: u32, number: u32)
        ensures { Prints self.old (refused_line index number) self.new }
    {
        if self.has_room() {
            self.put_number(index);
            self.put_field(" refused ", number);
            self.put("\n");
        }
    }

    // The line of a server: how many commands its catalogue took, and how many of them it skipped.
    #[tactic(auto, unfolding(crate::specs::Lines::server_line), using(crate::proofs::LineLaws::room_for))]
    pub fn server_line(&mut self, server: u32, taken: u32, skipped: u32)
        ensures { Prints self.old (server_line server taken skipped) self.new }
    {
        if self.has_room() {
            self.put_field("server ", server);
            self.put_field(" taken ", taken);
            self.put_field(" skipped ", skipped);
            self.put("\n");
        }
    }

    // The only line where no room is opened, with a refusal's number.
    #[tactic(auto, unfolding(crate::specs::Lines::open_line), using(crate::proofs::LineLaws::room_for))]
    pub fn open_line(&mut self, number: u32)
        ensures { Prints self.old (open_line number) self.new }
    {
        if self.has_room() {
            self.put_field("open refused ", number);
            self.put("\n");
        }
    }

    // Whether the longest line has room behind the text.
    #[tactic(auto, using(crate::proofs::LineLaws::room_left))]
    fn has_room(&self) -> bool
        ensures { result ≡ has_room (length self.now.buffer.now) self.now.length }
    {
        LINE_MAX <= self.buffer.len().saturating_sub(self.length)
    }

    // The word and the number of an answer, each after a space: 21 bytes at most. Inlined, with what it calls, so that each
    // label has a length that is known. Most steps are done, so that text stands whole.
    #[tactic(auto, using(crate::proofs::DigitLaws::digits_zero))]
    #[inline(always)]
    fn put_answer(&mut self, answer: Result<Answer, Refusal>)
        requires { self.old.length + 21 ≤ length self.old.buffer.now }
        ensures { Puts self.old (answer_text answer) self.new 21 }
    {
        match answer {
            Ok(Answer::Done) => self.put(" done 0"),
            Ok(Answer::Outbid(ballot)) => self.put_field(" outbid ", ballot),
            Ok(Answer::Chosen(command)) => self.put_field(" chosen ", command),
            Ok(Answer::Committed(command)) => self.put_field(" committed ", command),
            Err(refusal) => self.put_field(" refused ", refusal.number()),
        }
    }

    // A number after its label.
    #[inline(always)]
    fn put_field(&mut self, label: &str, number: u32)
        requires { self.old.length + length label.now + 10 ≤ length self.old.buffer.now }
        ensures { Puts self.old (label.now ++ digits number) self.new (length label.now + 10) }
    {
        self.put(label);
        self.put_number(number);
    }

    // The decimal digits of a number, of which there are ten at most. They are counted first, so that itoa writes each in
    // its place.
    #[tactic(auto, using(crate::proofs::DigitLaws::digits_ten, crate::proofs::DigitLaws::digits_decimal))]
    #[inline(always)]
    fn put_number(&mut self, number: u32)
        requires { self.old.length + 10 ≤ length self.old.buffer.now }
        ensures { Puts self.old (digits number) self.new 10 }
    {
        let end = self.length + digit_count(number);
        write_digits(number.into(), self.buffer, end);
        self.length = end;
    }

    // The bytes of a text.
    #[inline(always)]
    fn put(&mut self, text: &str)
        requires { self.old.length + length text.now ≤ length self.old.buffer.now }
        ensures { Puts self.old text.now self.new (length text.now) }
    {
        let end = self.length + text.len();
        self.buffer[self.length..end].copy_from_slice(text.as_bytes());
        self.length = end;
    }
}

// How many digits a number has. `as` keeps the number: a logarithm is at most 9.
#[tactic(auto, using(crate::proofs::DigitLaws::one_length, crate::proofs::DigitLaws::log_length))]
#[inline(always)]
fn digit_count(number: u32) -> usize
    ensures { result ≡ length (digits number) }
{
    if number < 10 {
        1
    } else {
        number.ilog10() as usize + 1
    }
}
