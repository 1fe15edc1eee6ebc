// The rows of a table of commands, and their parts.
use console_replies::REFUSED;
use text_parsing::{find, is};

// Part k of a row, the first being 0; the last one where there are fewer.
pub fn part<'a>(row: &'a [u8], k: usize) -> &'a [u8] {
    let mut left = k;
    let mut start: usize = 0;
    loop {
        let end = find(row, start, row.len(), b'|');
        if left == 0 {
            return &row[start..end];
        }
        if end == row.len() {
            return &row[start..end];
        }
        start = end + 1;
        left -= 1;
    }
}

// Whether a line is a name, or a name and a space and more.
fn begins(line: &[u8], name: &[u8]) -> bool {
    let n = name.len();
    if line.len() < n {
        return false;
    }
    if !is(&line[0..n], name) {
        return false;
    }
    if line.len() == n {
        return true;
    }
    line[n] == b' '
}

// The row of the table whose name a line begins with; where there is none, an empty one.
pub fn row_of<'a>(table: &'a [u8], line: &[u8]) -> &'a [u8] {
    let mut start: usize = 0;
    loop {
        let end = find(table, start, table.len(), b';');
        let row = &table[start..end];
        if begins(line, part(row, 0)) {
            return row;
        }
        if end == table.len() {
            return &table[end..end];
        }
        start = end + 1;
    }
}

// The text of a row that a reply chooses, or that of the table's first row.
pub fn text_of<'a>(table: &'a [u8], row: &'a [u8], choice: usize) -> &'a [u8] {
    if choice < REFUSED {
        return part(row, 2 + choice);
    }
    if choice == REFUSED {
        return part(table, 1);
    }
    part(table, 2)
}
