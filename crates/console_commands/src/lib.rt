// A line of the program console, read by a table of commands.
//
// A row of the table has parts that `|` parts: a command's name, of one word or more; its form; and the texts that it can answer, which crate
// console_answers prints. The form is the command's letter, by which it is called, and then a letter for each further word of a line: `L` for
// a list, `N` for a number, and a digit for a room, the length of the output list of that number. Rooms stand last, and all of them may be left
// out. Rows are parted by `;`. The first row is no command's: it has the texts that every command can answer.
#![tactic(auto)]

pub mod arguments;
pub mod rows;
