//! The files of a run.
ghost use Rattle.sketches.specs.Inputs.{OpensNext};

use crate::arguments::columns_option::{Chosen, ColumnList, part_of, with_column};
use crate::arguments::csv_options::CsvOptions;
use crate::arguments::words::{is_marked, shown};
use crate::item::weighing::WeighedRecord;
use crate::read::csv_header::{AfterHeader, Headed};
use crate::read::file_sizes::size_of_file;
use crate::read::inputs::Inputs;
use crate::read::line_source::LineSource;
use crate::read::progress::Progress;
use sketch_text::records::{Column, Columns, CsvField, RecordPart, Split};
use std::alloc::AllocError;
use std::fs::File;
use std::io;
use std::io::{ErrorKind, Read, Stdin};

/// A file or standard input.
#[derive(Drop)]
pub enum Input {
    File(File),
    Stdin(Stdin),
}

impl Read for Input {
    fn read(&mut self, buf: &mut [u8]) -> io::Result<usize> {
        match self {
            Input::File(file) => file.read(buf),
            Input::Stdin(stdin) => stdin.read(buf),
        }
    }
}

impl LineSource for Input {
    fn read_some(&mut self, buf: &mut [u8]) -> io::Result<usize> {
        self.read(buf)
    }
}

/// What is read of a file.
#[derive(Drop)]
pub struct Opened<'r> {
    source: Source,
    progress: Option<Progress<'r>>,
}

/// A file from its start, or after its header.
#[derive(Drop)]
enum Source {
    Whole(Input),
    AfterHeader(AfterHeader),
}

impl<'r> Read for Opened<'r> {
    fn read(&mut self, buf: &mut [u8]) -> io::Result<usize> {
        let count = match &mut self.source {
            Source::Whole(input) => input.read(buf)?,
            Source::AfterHeader(rest) => rest.read(buf)?,
        };
        if let Some(progress) = &mut self.progress {
            progress.add(count as u64);
        }
        Ok(count)
    }
}

impl<'r> LineSource for Opened<'r> {
    fn read_some(&mut self, buf: &mut [u8]) -> io::Result<usize> {
        self.read(buf)
    }
}

/// The columns of CSV that are read of each file.
#[derive(Clone, Copy)]
struct HeaderColumns<'a> {
    options: CsvOptions<'a>,
    item: Columns,
    weight: Option<Columns>,
    /// The maximum number of bytes of a header.
    limit: usize,
}

/// The header of the first file that can be read, and the file after it.
#[derive(Drop)]
enum FirstHeader {
    Read(Headed, Input),
    NoFile,
}

/// Files that are opened one after another. A file that cannot be read is reported on standard error.
#[derive(Drop)]
pub struct Files<'r, 's, 'n> {
    rt: &'r HostRuntime,
    names: &'s [&'n str],
    next: usize,
    failed: bool,
    done: bool,
    /// The columns, if CSV is read.
    columns: Option<HeaderColumns<'n>>,
    /// The first file, if it was opened for its header.
    first: Option<AfterHeader>,
    /// How many lines the header of the file has that was opened last.
    header_lines: u64,
    /// How much was read of the files before the next one, if it is shown.
    progress: Option<Progress<'r>>,
}

impl<'r, 's, 'n> Files<'r, 's, 'n> {
    /// Creates the files of these names, in order. None is opened yet. The name `-` stands for standard input.
    pub fn new(rt: &'r HostRuntime, names: &'s [&'n str]) -> Self {
        Files {
            rt,
            names,
            next: 0,
            failed: false,
            done: false,
            columns: None,
            first: None,
            header_lines: 0,
            progress: None,
        }
    }

    /// Shows the progress on standard error from now on, if it is wanted.
    pub fn show_progress(&mut self, is_wanted: bool) {
        if is_wanted {
            self.progress = Progress::start(self.rt, self.names);
        }
    }

    /// Returns the file that was opened last, whose progress is shown, if that is wanted.
    fn opened(&mut self, source: Source) -> Opened<'r> {
        let progress = self.progress;
        let bytes = size_of_file(self.rt, self.current()).unwrap_or(0);
        self.progress = progress.map(|before| before.after(bytes));
        Opened { source, progress }
    }

    /// Returns the fields of CSV that the options choose, and has each file read after its byte order mark and its header, if it has
    /// them. Names are those of the first file that can be read. Returns `None` after a message if it does not have them.
    ///
    /// `limit` is the maximum number of bytes of a header.
    pub fn columns(&mut self, options: CsvOptions<'n>, limit: usize) -> Option<WeighedRecord> {
        let (headed, input) = match self.first_header(options, limit)? {
            FirstHeader::Read(headed, input) => (headed, input),
            FirstHeader::NoFile => return Some(record_of_no_file(options)),
        };
        let columns = self.header_columns(&headed, options, limit);
        self.header_lines = headed.lines();
        self.first = Some(headed.into_rest(input));
        self.columns = columns;
        columns.map(weighed_by)
    }

    /// Returns the byte order mark and the header of the first file that can be read, if CSV is read and no record was. Returns no bytes
    /// if not. A header without a line feed at its end gets one.
    pub fn header(&self) -> Result<Vec<u8>, AllocError> {
        let mut header = Vec::new(self.rt.alloc());
        if let Some(first) = &self.first {
            header.extend_from_slice(first.header())?;
            if first.has_header() && header.last().is_some_and(|byte| *byte != b'\n') {
                header.push(b'\n')?;
            }
        }
        Ok(header)
    }

    /// Opens the first file that can be read, and reads its header. Returns `None` after a message if the header is too long.
    fn first_header(&mut self, options: CsvOptions<'n>, limit: usize) -> Option<FirstHeader> {
        let names = self.names;
        for at in self.next..names.len() {
            self.next = at + 1;
            match open_headed(self.rt, names[at], options, limit) {
                Ok((headed, input)) => return Some(FirstHeader::Read(headed, input)),
                Err(error) => {
                    let is_long = error.kind() == ErrorKind::InvalidData;
                    self.report(error);
                    if is_long {
                        return None;
                    }
                }
            }
        }
        Some(FirstHeader::NoFile)
    }

    /// Returns the columns of a header that the options choose. Returns `None` after a message if it does not have a name.
    fn header_columns(
        &mut self,
        headed: &Headed,
        options: CsvOptions<'n>,
        limit: usize,
    ) -> Option<HeaderColumns<'n>> {
        let split = Split::Csv(options.delimiter);
        let item = self.columns_of(headed, split, options.item)?;
        let weight = match options.weight {
            Some(list) => Some(self.columns_of(headed, split, list)?),
            None => None,
        };
        Some(HeaderColumns {
            options,
            item,
            weight,
            limit,
        })
    }

    /// Returns the columns of a header that a list chooses. Returns `None` after a message if it does not have a name.
    fn columns_of(
        &mut self,
        headed: &Headed,
        split: Split,
        list: ColumnList<'n>,
    ) -> Option<Columns> {
        let mut columns = None;
        for index in 0..u32::MAX {
            let Some(chosen) = list.nth(index) else {
                break;
            };
            let column = match chosen {
                Chosen::Column(column) => column,
                Chosen::Name(name) => Column::FromFirst(self.index_of(headed, name)?),
            };
            columns = Some(with_column(columns, split, column));
        }
        columns
    }

    /// Returns the index of the field that has a name. Returns `None` after a message if the header does not have it.
    fn index_of(&mut self, headed: &Headed, name: &'n str) -> Option<u32> {
        match headed.index_of(self.rt.alloc(), name) {
            Ok(Some(index)) => Some(index),
            Ok(None) => {
                self.reject(name);
                None
            }
            Err(_) => {
                let _ = eprintln!(self.rt; "sketches: no memory");
                None
            }
        }
    }

    /// Reports that the file that was opened last does not have a column of this name.
    fn reject(&mut self, name: &'n str) {
        self.failed = true;
        let _ = eprintln!(self.rt;
            "sketches: {}: no column '{}'",
            shown(self.current()),
            shown(name)
        );
    }

    /// Returns whether a header has the named columns in the same fields as that of the first file. Reports if it does not.
    fn has_columns(&mut self, headed: &Headed, columns: HeaderColumns<'n>) -> bool {
        if !self.has_list(headed, columns.options.item, &columns.item) {
            return false;
        }
        match (columns.options.weight, columns.weight) {
            (Some(list), Some(weight)) => self.has_list(headed, list, &weight),
            _ => true,
        }
    }

    /// Returns whether a header has the named columns of a list in the same fields. Reports if it does not.
    fn has_list(&mut self, headed: &Headed, list: ColumnList<'n>, columns: &Columns) -> bool {
        for index in 0..u32::MAX {
            match (list.nth(index), columns.get(index as usize)) {
                (Some(Chosen::Name(name)), Some(Column::FromFirst(field))) => {
                    if !self.has_name(headed, name, field) {
                        return false;
                    }
                }
                (Some(_), _) => {}
                (None, _) => break,
            }
        }
        true
    }

    /// Returns whether a header has a name in the field of this index. Reports if it does not.
    fn has_name(&mut self, headed: &Headed, name: &'n str, index: u32) -> bool {
        let Some(found) = self.index_of(headed, name) else {
            return false;
        };
        if found != index {
            self.failed = true;
            let _ = eprintln!(self.rt;
                "sketches: {}: column '{}' is field {}, and was field {} before",
                shown(self.current()),
                shown(name),
                u64::from(found) + 1,
                u64::from(index) + 1
            );
        }
        found == index
    }

    /// Opens a file, after its header if there is one.
    fn open_next(&mut self, name: &str) -> io::Result<Option<Source>> {
        let Some(columns) = self.columns else {
            return Ok(Some(Source::Whole(open(self.rt, name)?)));
        };
        let (headed, input) = open_headed(self.rt, name, columns.options, columns.limit)?;
        if !self.has_columns(&headed, columns) {
            return Ok(None);
        }
        self.header_lines = headed.lines();
        Ok(Some(Source::AfterHeader(headed.into_rest(input))))
    }

    /// Returns the names of the files.
    pub fn names(&self) -> &'s [&'n str] {
        self.names
    }

    /// Returns the name of the file that was opened last.
    pub fn current(&self) -> &'n str {
        match self.names.get(self.next.saturating_sub(1)) {
            Some(name) => *name,
            None => "-",
        }
    }

    /// Returns the number of lines of the header of the file that was opened last.
    pub fn header_lines(&self) -> u64 {
        self.header_lines
    }

    /// Returns whether no file is left.
    pub fn is_done(&self) -> bool {
        self.done
    }

    /// Returns whether a file could not be read.
    pub fn has_failed(&self) -> bool {
        self.failed
    }
}

/// Opens a file, or standard input for `-`.
pub fn open(rt: &HostRuntime, name: &str) -> io::Result<Input> {
    if name == "-" {
        return Ok(Input::Stdin(rt.stdin()));
    }
    if is_marked(name) {
        let message = "the name is not UTF-8: read the file by < FILE";
        return Err(io::Error::new(ErrorKind::InvalidInput, message));
    }
    Ok(Input::File(File::open(rt, name)?))
}

/// Opens a file and reads its header, if it has one.
fn open_headed(
    rt: &HostRuntime,
    name: &str,
    options: CsvOptions<'_>,
    limit: usize,
) -> io::Result<(Headed, Input)> {
    let mut input = open(rt, name)?;
    let headed = Headed::read(
        rt.alloc(),
        &mut input,
        options.delimiter,
        limit,
        options.header,
    )?;
    Ok((headed, input))
}

/// Returns the parts of records that columns are.
fn weighed_by(columns: HeaderColumns<'_>) -> WeighedRecord {
    WeighedRecord {
        item: part_of(columns.item),
        weight: columns.weight.map(part_of),
        unweighed: columns.options.unweighed,
    }
}

/// Returns parts of records that no file has.
fn record_of_no_file(options: CsvOptions<'_>) -> WeighedRecord {
    WeighedRecord {
        item: RecordPart::Csv(CsvField {
            delimiter: options.delimiter,
            index: 0,
        }),
        weight: None,
        unweighed: options.unweighed,
    }
}

impl<'r, 's, 'n> Inputs for Files<'r, 's, 'n> {
    type Reader = Opened<'r>;

    fn next(&mut self) -> Option<Opened<'r>> {
        if let Some(first) = self.first.take() {
            return Some(self.opened(Source::AfterHeader(first)));
        }
        let names = self.names;
        for at in self.next..names.len() {
            self.next = at + 1;
            match self.open_next(names[at]) {
                Ok(Some(source)) => return Some(self.opened(source)),
                Ok(None) => continue,
                Err(error) => self.report(error),
            }
        }
        self.done = true;
        None
    }

    fn report(&mut self, error: io::Error) {
        self.failed = true;
        // A header has no other error of this kind.
        let _ = if error.kind() == ErrorKind::InvalidData {
            eprintln!(self.rt;
                "sketches: {}: a line is longer than --max-line",
                shown(self.current())
            )
        } else {
            eprintln!(self.rt; "sketches: {}: {error}", shown(self.current()))
        };
    }
}
