// The commands: a row of the table for each, and the answer to a line by its row.
ghost use Rattle.text_printing.specs.Printing.{output};
ghost use Rattle.console_answers.specs.Answers.{ReplyPut, AnswerPut};

use console_answers::put_answer;
use console_commands::arguments::{ALL_ENTRIES, Arguments, MAX_ENTRIES, read_arguments, room};
use console_commands::rows::{row_of, text_of};
use console_diagrams::on_diagrams;
use console_fields::on_fields;
use console_replies::{Reply, error};
use console_state::on_state;
use text_printing::put_text;

// The most letters of a word: an item has at most six.
const MAX_LETTERS: usize = 6 * MAX_ENTRIES;

// The command of a letter, 0 where there is none. Its lists are its parts of entries; its numbers and the lengths of its lists are in values.
fn on_command(
    letter: u8,
    entries: &[u16],
    values: [u64; 16],
    run: &mut [u16; 54],
    upto: &mut [u16; 54],
    visits: &mut u64,
    book: &mut [u64; 100],
    s0: &mut [u16],
    s1: &mut [u16],
    words: &mut [u16],
    lengths: &mut [u16],
    bytes: &mut [u8],
) -> Reply {
    if letter == 0 {
        return error();
    }
    if letter < b'A' {
        return on_fields(letter, entries, values, run, book, words);
    }
    if letter < b'a' {
        return on_state(
            letter, values, run, upto, visits, book, s0, s1, words, lengths, bytes,
        );
    }
    on_diagrams(letter, entries, values, s0, s1, words, bytes)
}

// The answer to the arguments of a line by its row, in output lists that are as long as the rooms.
fn respond<'a>(
    table: &'a [u8],
    row: &'a [u8],
    arguments: Arguments,
    entries: &[u16],
    run: &mut [u16; 54],
    upto: &mut [u16; 54],
    visits: &mut u64,
    book: &mut [u64; 100],
    out: &mut [u8],
    place: usize,
) -> usize
    ensures { ReplyPut (output out.old place) (output out.new result) }
{
    let mut s0 = [0u16; MAX_ENTRIES];
    let mut s1 = [0u16; MAX_ENTRIES];
    let mut words = [0u16; MAX_ENTRIES];
    let mut lengths = [0u16; MAX_ENTRIES];
    let mut bytes = [0u8; MAX_LETTERS];
    let values = arguments.values;
    let r0 = room(values, 0, MAX_ENTRIES);
    let r1 = room(values, 1, MAX_ENTRIES);
    let rw = room(values, 2, MAX_ENTRIES);
    let rl = room(values, 3, MAX_ENTRIES);
    let rb = room(values, 4, MAX_LETTERS);
    let reply = on_command(
        arguments.letter,
        entries,
        values,
        run,
        upto,
        visits,
        book,
        &mut s0[0..r0],
        &mut s1[0..r1],
        &mut words[0..rw],
        &mut lengths[0..rl],
        &mut bytes[0..rb],
    );
    let text = text_of(table, row, reply.choice);
    put_answer(out, place, text, reply, &s0, &s1, &words, &lengths, &bytes)
}

fn by_table(
    table: &[u8],
    line: &[u8],
    run: &mut [u16; 54],
    upto: &mut [u16; 54],
    visits: &mut u64,
    book: &mut [u64; 100],
    out: &mut [u8],
    place: usize,
) -> usize
    ensures { ReplyPut (output out.old place) (output out.new result) }
{
    let row = row_of(table, line);
    let mut entries = [0u16; ALL_ENTRIES];
    let arguments = read_arguments(row, line, &mut entries);
    respond(
        table, row, arguments, &entries, run, upto, visits, book, out, place,
    )
}

// The answer to a line, by the table of commands (crate console_commands). A small letter is that of a command that alters nothing, a capital that of
// an operation on the runs or the book, and a digit that of a command that prints or writes numbers of these. A line that begins with `#` is its own
// answer.
pub fn on_line(
    line: &[u8],
    run: &mut [u16; 54],
    upto: &mut [u16; 54],
    visits: &mut u64,
    book: &mut [u64; 100],
    out: &mut [u8],
    place: usize,
) -> usize
    ensures { AnswerPut line.now (output out.old place) (output out.new result) }
{
    if 0 < line.len() {
        if line[0] == b'#' {
            return put_text(out, place, line);
        }
    }
    by_table(
        b"#|refused A|error|;\
        at|aNN012|0 1 2;\
        book|7|A B C D 6 7 8;\
        begin|BN|ok;\
        begin-at|ANN|ok;\
        check|cLLN|ok;\
        claim|CNNN|ticket A;\
        commit|PNNN|ok;\
        commits|QNNNN|ok;\
        compare rooted|rLLNLLN|different|same|refused A side B;\
        compare unrooted|uLLNLLN|different|same|refused A side B;\
        count|nN|A;\
        invariants|iLLN|A B C + D;\
        kept|kLLN|no|yes;\
        kept-count|eN|A;\
        lesser|lLL|A 0;\
        letters|tL4|5;\
        list|LN0123|A 0 1 2 3;\
        marked|MN01234|A 0 1 2 3 4;\
        next|N012|A B 0 1 2|end;\
        open|ONN|ok;\
        position|pLLN|A;\
        reached|mL|no|yes;\
        read|dL01|0 1;\
        relabel|bLLN012|0 1 2;\
        release|FNN|ok;\
        report|R|A open|A complete;\
        row|oNN|5;\
        run|8|A B C 2;\
        set run|9NNNL|ok;\
        set size|0N|ok;\
        set shares|1N|ok;\
        set latest|2N|ok;\
        set issued|3N|ok;\
        set next|4NN|ok;\
        set ticket|5NN|ok;\
        set expiry|6NN|ok;\
        sheet|hL01|0 9;\
        step|S012|0 1 2|end;\
        summary|y|5;\
        symmetries|sLLN|A;\
        take|TNN012|share A position B 0 1 2;\
        upto|UN|ok;\
        upto-visits|VN|ok;\
        walk|wN0|A 0",
        line,
        run,
        upto,
        visits,
        book,
        out,
        place,
    )
}
