//! The rows of a table, and their fields.

/// Checks that a line of a table is a row.
pub fn is_row(line: &str) -> bool {
    let row = line.trim_start();
    !row.is_empty() && !row.starts_with("//")
}

/// Returns how many rows a table has.
pub fn count_of_rows(table: &str) -> usize {
    table.lines().filter(|line| is_row(line)).count()
}

/// Checks that a word is among those of a field.
pub fn has_word(field: &str, word: &str) -> bool {
    field.split_whitespace().any(|it| it == word)
}

/// Returns the first word, and what stands after it.
pub fn word_and_rest(field: &str) -> (&str, &str) {
    let field = field.trim();
    let (word, rest) = field.split_once(' ').unwrap_or((field, ""));
    (word, rest.trim())
}

/// Returns the fields of a row of two, without the spaces around them.
pub fn two_fields(row: &str) -> Option<(&str, &str)> {
    let (first, second) = row.split_once('|')?;
    Some((first.trim(), second.trim()))
}

/// Returns the fields of a row of three.
pub fn three_fields(row: &str) -> Option<(&str, &str, &str)> {
    let (first, rest) = row.split_once('|')?;
    let (second, third) = two_fields(rest)?;
    Some((first.trim(), second, third))
}

/// Returns the fields of a row of four.
pub fn four_fields(row: &str) -> Option<(&str, &str, &str, &str)> {
    let (first, rest) = row.split_once('|')?;
    let (second, third, fourth) = three_fields(rest)?;
    Some((first.trim(), second, third, fourth))
}
