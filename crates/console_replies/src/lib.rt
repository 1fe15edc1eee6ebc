// What a command answers, as numbers: which text of its row, and what the fields of that text stand for (crate console_answers). A refusal is 0
// where there is none.
#![tactic(auto)]

pub mod blocks;

// The choices of the texts that every command can answer, in the first row of the table.
pub const REFUSED: usize = 100;

pub const ERROR: usize = 101;

// Field A is the first of the numbers, B the second, and so on. Field + is the signed number. Fields 0 to 4 are the first entries of the
// output lists, as many as lengths says; field 9 is the first of the numbers, as many as the second of lengths says.
#[derive(Clone, Copy)]
pub struct Reply {
    pub choice: usize,
    pub numbers: [u64; 100],
    pub signed: i32,
    pub lengths: [u64; 5],
}

// A 16-bit number as a 64-bit one.
pub fn long(x: u16) -> u64 {
    x as u64
}

// The text of that number, with no field.
pub fn chosen(choice: usize) -> Reply {
    Reply {
        choice,
        numbers: [0; 100],
        signed: 0,
        lengths: [0; 5],
    }
}

pub fn error() -> Reply {
    chosen(ERROR)
}

// This reply, or the refusal where there is one.
pub fn unless_refused(refusal: u16, reply: Reply) -> Reply {
    if refusal == 0 {
        return reply;
    }
    let mut refused = chosen(REFUSED);
    refused.numbers[0] = long(refusal);
    refused
}

// The first text, with no field.
pub fn done(refusal: u16) -> Reply {
    unless_refused(refusal, chosen(0))
}

// The first text, with a number.
pub fn valued(refusal: u16, x: u64) -> Reply {
    let mut reply = chosen(0);
    reply.numbers[0] = x;
    unless_refused(refusal, reply)
}

// The first text where a mark is 0, otherwise the second, each with a number.
pub fn marked(refusal: u16, mark: u64, x: u64) -> Reply {
    let mut reply = valued(0, x);
    if mark != 0 {
        reply.choice = 1;
    }
    unless_refused(refusal, reply)
}

// The first text, with a number, and so many entries of each output list.
pub fn listed(refusal: u16, x: u64, lengths: [u64; 5]) -> Reply {
    let mut reply = valued(0, x);
    reply.lengths = lengths;
    unless_refused(refusal, reply)
}

// A diagram of so many edges and its word of so many items, after two numbers. Every word has items: where there are none, the second text is
// meant.
pub fn placed(refusal: u16, x: u64, y: u64, edges: u64, items: u64) -> Reply {
    let mut reply = listed(0, x, [edges, edges, items, 0, 0]);
    reply.numbers[1] = y;
    if items == 0 {
        reply.choice = 1;
    }
    unless_refused(refusal, reply)
}

// The same with no number.
pub fn shown(refusal: u16, edges: u64, items: u64) -> Reply {
    placed(refusal, 0, 0, edges, items)
}

// Four numbers and the signed one.
pub fn numbered(refusal: u16, a: u16, b: u16, c: u16, d: u64, signed: i32) -> Reply {
    let mut reply = valued(0, long(a));
    reply.numbers[1] = long(b);
    reply.numbers[2] = long(c);
    reply.numbers[3] = d;
    reply.signed = signed;
    unless_refused(refusal, reply)
}

// The first text where two diagrams are different, the second where they are the same, and the third, with the number and the side, where one is
// refused.
pub fn compared(refusal: u16, same: u64, side: u64) -> Reply {
    if refusal == 0 {
        return marked(0, same, 0);
    }
    let mut reply = valued(0, long(refusal));
    reply.numbers[1] = side;
    reply.choice = 2;
    reply
}
