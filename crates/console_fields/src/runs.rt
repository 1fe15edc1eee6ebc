// The commands that print and write the run.
use console_replies::blocks::copy_into;
use console_replies::{Reply, chosen, error, listed, long};

// Its size, stage and length, and its 51 items in output list 2.
pub fn show(run: &[u16; 54], list: &mut [u16]) -> Reply {
    let numbers: &[u16] = run;
    let items = copy_into(&numbers[3..], list);
    let mut reply = listed(0, long(run[0]), [0, 0, items, 0, 0]);
    reply.numbers[1] = long(run[1]);
    reply.numbers[2] = long(run[2]);
    reply
}

// A run of such items, with zeros after them and in its other fields.
fn with_items(items: &[u16]) -> [u16; 54] {
    let mut run = [0u16; 54];
    let count = items.len().min(51);
    run[3..3 + count].copy_from_slice(&items[..count]);
    run
}

// Whether the fields of a run hold such numbers and so many items.
fn fits(size: u64, stage: u64, length: u64, count: usize) -> bool {
    size <= 65535 && stage <= 65535 && length <= 65535 && count <= 51
}

fn narrow(x: u64) -> u16 {
    (x % 65536) as u16
}

// Writes the run. What does not fit it leaves it alone.
pub fn set(size: u64, stage: u64, length: u64, items: &[u16], run: &mut [u16; 54]) -> Reply {
    if !fits(size, stage, length, items.len()) {
        return error();
    }
    let mut numbers = with_items(items);
    numbers[0] = narrow(size);
    numbers[1] = narrow(stage);
    numbers[2] = narrow(length);
    *run = numbers;
    chosen(0)
}
