// The share book in its lent form (crate book_by_value lends it to crate book_lent): a session that sleeps too long, and the one after it. A line
// for each call, with its arguments; size 4 in 3 shares, of which share 1 holds positions 1 and 2 (document 01, table (k)).
use book::Book;
use refusals::Refusal;
use std::io;
use std::io::Write;

fn write<W: Write>(stdout: &mut W, text: &[u8]) -> io::Result<()> {
    stdout.write_all(text)
}

fn write_number<W: Write>(stdout: &mut W, x: u64) -> io::Result<()> {
    write!(stdout, " {x}")
}

fn write_refusal<W: Write>(stdout: &mut W, refusal: Refusal) -> io::Result<()> {
    writeln!(stdout, ": refused {}", refusal.number())
}

// The end of a call's line.
fn write_done<W: Write>(stdout: &mut W, answer: Result<(), Refusal>) -> io::Result<()> {
    match answer {
        Ok(()) => write(stdout, b": ok\n"),
        Err(refusal) => write_refusal(stdout, refusal),
    }
}

// A call's name and its first two arguments.
fn write_call<W: Write>(stdout: &mut W, name: &[u8], a: u64, b: u64) -> io::Result<()> {
    write(stdout, name)?;
    write_number(stdout, a)?;
    write_number(stdout, b)
}

// A book of zeros, which open replaces.
fn blank() -> Book {
    let none = [0u64; 32];
    Book {
        size: 0,
        shares: 0,
        latest: 0,
        issued: 0,
        next: none,
        ticket: none,
        expiry: none,
    }
}

fn open<W: Write>(stdout: &mut W, b: Book, size: u64, k: u64) -> io::Result<Book> {
    write_call(stdout, b"open", size, k)?;
    let done = book_by_value::open(b, size, k);
    write_done(stdout, done.answer)?;
    Ok(done.book)
}

fn claim<W: Write>(
    stdout: &mut W,
    b: Book,
    tick: u64,
    share: u64,
    length: u64,
) -> io::Result<Book> {
    write_call(stdout, b"claim", tick, share)?;
    write_number(stdout, length)?;
    let done = book_by_value::claim(b, tick, share, length);
    match done.answer {
        Ok(t) => {
            write(stdout, b": ticket")?;
            write_number(stdout, t)?;
            write(stdout, b"\n")?;
        }
        Err(refusal) => write_refusal(stdout, refusal)?,
    }
    Ok(done.book)
}

fn take<W: Write>(stdout: &mut W, b: Book, tick: u64, ticket: u64) -> io::Result<Book> {
    let mut s0 = [0u16; 4];
    let mut s1 = [0u16; 4];
    let mut word = [0u16; 5];
    write_call(stdout, b"take", tick, ticket)?;
    let done = book_by_value::take(b, tick, ticket, &mut s0, &mut s1, &mut word);
    match done.answer {
        Ok(taken) => {
            write_call(stdout, b": share and position", taken.share, taken.position)?;
            write_call(
                stdout,
                b", items and the third",
                taken.length,
                u64::from(word[2]),
            )?;
            write(stdout, b"\n")?;
        }
        Err(refusal) => write_refusal(stdout, refusal)?,
    }
    Ok(done.book)
}

fn commit<W: Write>(
    stdout: &mut W,
    b: Book,
    tick: u64,
    ticket: u64,
    position: u64,
) -> io::Result<Book> {
    write_call(stdout, b"commit", tick, ticket)?;
    write_number(stdout, position)?;
    let done = book_by_value::commit(b, tick, ticket, position);
    write_done(stdout, done.answer)?;
    Ok(done.book)
}

fn release<W: Write>(stdout: &mut W, b: Book, tick: u64, ticket: u64) -> io::Result<Book> {
    write_call(stdout, b"release", tick, ticket)?;
    let done = book_by_value::release(b, tick, ticket);
    write_done(stdout, done.answer)?;
    Ok(done.book)
}

fn report<W: Write>(stdout: &mut W, b: Book) -> io::Result<()> {
    write(stdout, b"report")?;
    match book_by_value::report(b) {
        Ok(progress) => {
            write_number(stdout, progress.committed)?;
            if progress.complete {
                write(stdout, b" complete\n")
            } else {
                write(stdout, b" open\n")
            }
        }
        Err(refusal) => write_refusal(stdout, refusal),
    }
}

// The first session: its ticket is good at tick 14 and has lapsed at 15.
fn first_session<W: Write>(stdout: &mut W, b: Book) -> io::Result<Book> {
    let claimed = claim(stdout, b, 10, 1, 5)?;
    let taken = take(stdout, claimed, 11, 1)?;
    let committed = commit(stdout, taken, 14, 1, 1)?;
    let late = commit(stdout, committed, 15, 1, 2)?;
    report(stdout, late)?;
    Ok(late)
}

// The second, on the same share. The first wakes late and releases its old ticket, which has no power; the share is finished by the second.
fn second_session<W: Write>(stdout: &mut W, b: Book) -> io::Result<Book> {
    let claimed = claim(stdout, b, 15, 1, 10)?;
    let released = release(stdout, claimed, 16, 1)?;
    let taken = take(stdout, released, 16, 2)?;
    let finished = commit(stdout, taken, 16, 2, 2)?;
    report(stdout, finished)?;
    Ok(finished)
}

// A ticket ends with its share; a finished share is not claimed; ticks do not go back; a release frees a share.
fn last_calls<W: Write>(stdout: &mut W, b: Book) -> io::Result<()> {
    let ended = commit(stdout, b, 17, 2, 3)?;
    let again = claim(stdout, ended, 17, 1, 5)?;
    let back = claim(stdout, again, 15, 2, 5)?;
    let other = claim(stdout, back, 17, 2, 5)?;
    let free = release(stdout, other, 18, 3)?;
    let last = claim(stdout, free, 18, 2, 5)?;
    report(stdout, last)
}

pub fn run_sessions<W: Write>(stdout: &mut W) -> io::Result<()> {
    let opened = open(stdout, blank(), 4, 3)?;
    let after = first_session(stdout, opened)?;
    let finished = second_session(stdout, after)?;
    last_calls(stdout, finished)
}
