//! Results of the examples of strings in sequences, and of fields of records.
use crate::lines::ResultLines;
use crate::sketch_base_docs::{
    byte_strings, items, lines as lines_of, offset_strings, separator, split, strings, utf8, words,
};
use crate::sketch_text_docs::readme;
use sketch_base::Lines;

pub fn write(lines: &mut ResultLines) {
    write_words(lines);
    write_lines(lines);
    write_columns(lines);
    write_bytes(lines);
    write_offsets(lines);
    write_sales(lines);
}

fn write_words(lines: &mut ResultLines) {
    lines.show(
        "number_of_words",
        &items::number_of_words("  one\t\ntwo three"),
    );
    lines.show("last_word", &words::last_word("one two "));
    lines.show("is_pair", &split::is_pair(" one  two"));
    lines.show("is_pair", &split::is_pair("one two three"));
}

fn write_lines(lines: &mut ResultLines) {
    lines.show("first_line", &lines_of::first_line("one\r\n\ntwo"));
    lines.show("first_line", &lines_of::first_line(""));
    lines.show("longest", &strings::longest(Lines::new("one\r\n\nthree")));
    lines.show(
        "first_of_three",
        &strings::first_of_three(&["ann", "bob", "eve"]),
    );
}

fn write_columns(lines: &mut ResultLines) {
    lines.show("first_field", &separator::first_field(b"add apple 5"));
    lines.show("third_column", &words::third_column("one  two\tthree"));
    lines.show("third_column", &words::third_column("one two"));
}

fn write_bytes(lines: &mut ResultLines) {
    lines.show(
        "complete_words",
        &split::complete_words(b"one two thr").len(),
    );
    lines.show(
        "complete_lines",
        &split::complete_lines(b"one\ntwo\nthr").len(),
    );
    lines.show("is_text", &utf8::is_text(b"caf\xC3\xA9"));
    lines.show("is_text", &utf8::is_text(b"caf\xC3"));
}

fn write_offsets(lines: &mut ResultLines) {
    lines.show(
        "can_be_cut",
        &offset_strings::can_be_cut(b"annbob", &[0, 3, 6]),
    );
    lines.show(
        "can_be_cut",
        &offset_strings::can_be_cut(b"annbob", &[0, 7]),
    );
    lines.show("number_of_fruit", &offset_strings::number_of_fruit());
    lines.show(
        "number_of_names",
        &byte_strings::number_of_names(&[b"ann", b"\xff"]),
    );
    lines.show(
        "number_of_names",
        &byte_strings::number_of_names(&[b"\xff"]),
    );
}

fn write_sales(lines: &mut ResultLines) {
    let alloc = lines.alloc;
    let table = b"apple,x,5\n\"pear, green\",y,7\n\napple,,2\n";
    lines.show("number_of_sales", &readme::number_of_sales(alloc, table));
    lines.show(
        "number_of_sales",
        &readme::number_of_sales(alloc, b"apple,x\n"),
    );
}
