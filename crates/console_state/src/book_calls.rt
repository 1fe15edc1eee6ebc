// The commands on the share book.
use console_replies::{Reply, done, marked, placed, valued};
use kaldvemir::books::{
    kaldvemir_claim, kaldvemir_commit, kaldvemir_commit_range, kaldvemir_open, kaldvemir_release,
    kaldvemir_report, kaldvemir_take,
};

pub fn open(book: &mut [u64; 100], size: u64, shares: u64) -> Reply {
    done(kaldvemir_open(book, size, shares))
}

pub fn claim(book: &mut [u64; 100], tick: u64, share: u64, length: u64) -> Reply {
    let mut ticket: u64 = 0;
    let refusal = kaldvemir_claim(book, tick, share, length, &mut ticket);
    valued(refusal, ticket)
}

pub fn take(
    book: &mut [u64; 100],
    tick: u64,
    ticket: u64,
    s0: &mut [u16],
    s1: &mut [u16],
    word: &mut [u16],
) -> Reply {
    let mut share: u64 = 0;
    let mut position: u64 = 0;
    let mut items: u64 = 0;
    let refusal = kaldvemir_take(
        book,
        tick,
        ticket,
        s0,
        s1,
        word,
        &mut share,
        &mut position,
        &mut items,
    );
    placed(refusal, share, position, book[0], items)
}

pub fn commit(book: &mut [u64; 100], tick: u64, ticket: u64, position: u64) -> Reply {
    done(kaldvemir_commit(book, tick, ticket, position))
}

pub fn commit_range(book: &mut [u64; 100], tick: u64, ticket: u64, first: u64, last: u64) -> Reply {
    done(kaldvemir_commit_range(book, tick, ticket, first, last))
}

pub fn release(book: &mut [u64; 100], tick: u64, ticket: u64) -> Reply {
    done(kaldvemir_release(book, tick, ticket))
}

pub fn report(book: &[u64; 100]) -> Reply {
    let mut committed: u64 = 0;
    let mut complete: u64 = 0;
    let refusal = kaldvemir_report(book, &mut committed, &mut complete);
    marked(refusal, complete, committed)
}
