//! Cells, as bytes that a terminal is told.

ghost use Rattle.std.specs.Prelude.{◌≡◌, [], ◌∷◌, ◌++◌, ◌+◌, ◌<◌, ◌≤◌, IfSome, Some};
ghost use Rattle.arrayvec.specs.ArrayVec.{array_vec_len};
ghost use Rattle.tv_io.specs.Pen.{Puts, PutsPart};
ghost use Rattle.tv_terminal.specs.Written.{cell_bytes, colour_bytes, colouring, cursor_bytes, going, number_bytes, one_colour_bytes, own_parameter, parameters, place_after, place_bytes, recolouring, right_bytes, showing};
ghost use Rattle.tv_terminal.specs.Displays.{IsPrintable};

use crate::colour::{Colours, fixed_index, own_number};
use arrayvec::ArrayVec;
use tv_cells::Cell;
use tv_io::{Pen, Writer, push_char};

// How many bytes wait at most until they are written.
const ROOM: usize = 256;

// The most bytes that a cell takes: a sequence of at most ten, one of at most 22, and a character.
const CELL: usize = 36;

// From where on numbers set the colour of characters, and that of the ground behind them.
const FRONT: u32 = 30;

const BACK: u32 = 40;

/// Bytes that wait to be written, and what is known of the terminal once it is told them: where its cursor stands, and which
/// attribute's colours it writes in; and by which colours these show.
#[derive(Drop)]
pub(crate) struct Hand {
    pub(crate) waiting: ArrayVec<u8, ROOM>,
    pub(crate) place: Option<(u32, u32)>,
    pub(crate) attr: Option<u8>,
    pub(crate) colours: Colours,
}

impl Hand {
    /// Makes the hand that knows so much, and has nothing to write.
    pub(crate) fn new(place: Option<(u32, u32)>, attr: Option<u8>, colours: Colours) -> Hand
        ensures bytes { result.waiting.items ≡ [] }
        ensures place { result.place ≡ place }
        ensures attr { result.attr ≡ attr }
        ensures colours { result.colours ≡ colours }
    {
        Hand {
            waiting: ArrayVec::new(),
            place,
            attr,
            colours,
        }
    }

    /// Writes what waits.
    pub(crate) fn flush<W: Writer>(&mut self, pen: &mut Pen<W>)
        ensures puts { Puts W.seen pen.old pen.new self.old.waiting.items }
        ensures bytes { self.new.waiting.items ≡ [] }
        ensures place { self.new.place ≡ self.old.place }
        ensures attr { self.new.attr ≡ self.old.attr }
        ensures colours { self.new.colours ≡ self.old.colours }
    {
        pen.put(self.waiting.as_slice());
        self.waiting.clear();
    }

    /// Puts a cell into a column and a row of the terminal.
    pub(crate) fn put<W: Writer>(&mut self, pen: &mut Pen<W>, column: u32, row: u32, cell: Cell)
        requires { (column < 999) × (row < 999) }
        ensures puts { PutsPart W.seen pen.old pen.new self.old.waiting.items
            (cell_bytes self.old.colours self.old.place self.old.attr column row cell) self.new.waiting.items }
        ensures place { self.new.place ≡ Some (record { 0 = column + 1; 1 = row }) }
        ensures attr { self.new.attr ≡ Some cell.attr }
        ensures colours { self.new.colours ≡ self.old.colours }
        ensures cell { IsPrintable cell }
    {
        if self.waiting.remaining_capacity() < CELL {
            self.flush(pen);
        }
        self.add(column, row, cell);
    }

    /// Brings the cursor to a place, or hides it, by whether it is known to show, and writes all that waits.
    pub(crate) fn finish<W: Writer>(
        &mut self,
        pen: &mut Pen<W>,
        was_on: Option<bool>,
        cursor: Option<(u32, u32)>,
    )
        requires { IfSome cursor (λ p. (p.0 < 999) × (p.1 < 999)) }
        ensures puts { Puts W.seen pen.old pen.new (self.old.waiting.items ++ cursor_bytes self.old.place was_on cursor) }
        ensures place { self.new.place ≡ place_after self.old.place cursor }
        ensures attr { self.new.attr ≡ self.old.attr }
        ensures colours { self.new.colours ≡ self.old.colours }
    {
        self.flush(pen);
        match cursor {
            Some((column, row)) => {
                self.go(column, row);
                self.place = Some((column, row));
                self.flush(pen);
                show(pen, was_on, true);
            }
            None => show(pen, was_on, false),
        }
    }

    // Adds a cell's bytes to those that wait.
    fn add(&mut self, column: u32, row: u32, cell: Cell)
        requires room { array_vec_len self.old.waiting + 36 ≤ 256 }
        requires small { (column < 999) × (row < 999) }
        ensures bytes { self.new.waiting.items ≡ self.old.waiting.items ++ cell_bytes self.old.colours self.old.place self.old.attr column row cell }
        ensures place { self.new.place ≡ Some (record { 0 = column + 1; 1 = row }) }
        ensures attr { self.new.attr ≡ Some cell.attr }
        ensures colours { self.new.colours ≡ self.old.colours }
        ensures cell { IsPrintable cell }
    {
        self.go(column, row);
        self.colour(cell.attr());
        push_char(&mut self.waiting, cell.ch());
        self.place = Some((column + 1, row));
    }

    /// Adds what brings the cursor to a place.
    pub(crate) fn go(&mut self, column: u32, row: u32)
        requires room { array_vec_len self.old.waiting + 10 ≤ 256 }
        requires small { (column < 999) × (row < 999) }
        ensures bytes { self.new.waiting.items ≡ self.old.waiting.items ++ going self.old.place column row }
        ensures few { array_vec_len self.new.waiting ≤ array_vec_len self.old.waiting + 10 }
        ensures attr { self.new.attr ≡ self.old.attr }
        ensures colours { self.new.colours ≡ self.old.colours }
    {
        match self.place {
            Some((x, y)) if x == column && y == row => {}
            Some((x, y)) if x < column && y == row => push_right(&mut self.waiting, column - x),
            _ => push_place(&mut self.waiting, column, row),
        }
    }

    // Adds what brings the colours of an attribute.
    fn colour(&mut self, attr: u8)
        requires { array_vec_len self.old.waiting + 22 ≤ 256 }
        ensures bytes { self.new.waiting.items ≡ self.old.waiting.items ++ colouring self.old.colours self.old.attr attr }
        ensures few { array_vec_len self.new.waiting ≤ array_vec_len self.old.waiting + 22 }
        ensures attr { self.new.attr ≡ Some attr }
        ensures colours { self.new.colours ≡ self.old.colours }
    {
        match self.attr {
            Some(set) if set == attr => {}
            Some(set) => push_changed(&mut self.waiting, self.colours, set, attr),
            None => push_colours(&mut self.waiting, self.colours, attr),
        }
        self.attr = Some(attr);
    }
}

// Has the cursor show or hides it, unless it is known to do so.
fn show<W: Writer>(pen: &mut Pen<W>, was_on: Option<bool>, is_on: bool)
    ensures { Puts W.seen pen.old pen.new (showing was_on is_on) }
{
    match was_on {
        Some(was) if was == is_on => {}
        _ if is_on => pen.put(b"\x1b[?25h"),
        _ => pen.put(b"\x1b[?25l"),
    }
}

// Adds the sequence that brings the cursor to a place.
fn push_place(bytes: &mut ArrayVec<u8, ROOM>, column: u32, row: u32)
    requires room { array_vec_len bytes.old + 10 ≤ 256 }
    requires small { (column < 999) × (row < 999) }
    ensures bytes { bytes.new.items ≡ bytes.old.items ++ place_bytes column row }
    ensures few { array_vec_len bytes.new ≤ array_vec_len bytes.old + 10 }
{
    bytes.push(b'\x1b');
    bytes.push(b'[');
    push_number(bytes, row + 1);
    bytes.push(b';');
    push_number(bytes, column + 1);
    bytes.push(b'H');
}

// Adds the sequence that brings the cursor so many columns to the right.
fn push_right(bytes: &mut ArrayVec<u8, ROOM>, columns: u32)
    requires room { array_vec_len bytes.old + 10 ≤ 256 }
    requires small { columns < 999 }
    ensures bytes { bytes.new.items ≡ bytes.old.items ++ right_bytes columns }
    ensures few { array_vec_len bytes.new ≤ array_vec_len bytes.old + 10 }
{
    bytes.push(b'\x1b');
    bytes.push(b'[');
    push_number(bytes, columns);
    bytes.push(b'C');
}

// Adds what brings the colours of an attribute where those of another are set.
fn push_changed(bytes: &mut ArrayVec<u8, ROOM>, colours: Colours, set: u8, attr: u8)
    requires room { array_vec_len bytes.old + 22 ≤ 256 }
    ensures bytes { bytes.new.items ≡ bytes.old.items ++ colouring colours (Some set) attr }
    ensures few { array_vec_len bytes.new ≤ array_vec_len bytes.old + 22 }
{
    match (set % 16 == attr % 16, set / 16 == attr / 16) {
        (true, true) => {}
        (true, false) => push_colour(bytes, colours, BACK, attr / 16),
        (false, true) => push_colour(bytes, colours, FRONT, attr % 16),
        (false, false) => push_colours(bytes, colours, attr),
    }
}

fn push_colour(bytes: &mut ArrayVec<u8, ROOM>, colours: Colours, first: u32, colour: u8)
    requires room { array_vec_len bytes.old + 22 ≤ 256 }
    requires small { (first < 100) × (colour < 16) }
    ensures bytes { bytes.new.items ≡ bytes.old.items ++ one_colour_bytes (parameters colours first colour) }
    ensures few { array_vec_len bytes.new ≤ array_vec_len bytes.old + 22 }
{
    bytes.push(b'\x1b');
    bytes.push(b'[');
    push_parameters(bytes, colours, first, colour);
    bytes.push(b'm');
}

fn push_colours(bytes: &mut ArrayVec<u8, ROOM>, colours: Colours, attr: u8)
    requires room { array_vec_len bytes.old + 22 ≤ 256 }
    ensures bytes { bytes.new.items ≡ bytes.old.items ++ colour_bytes colours attr }
    ensures few { array_vec_len bytes.new ≤ array_vec_len bytes.old + 22 }
{
    bytes.push(b'\x1b');
    bytes.push(b'[');
    push_parameters(bytes, colours, FRONT, attr % 16);
    bytes.push(b';');
    push_parameters(bytes, colours, BACK, attr / 16);
    bytes.push(b'm');
}

// Adds what sets one of the sixteen colours.
fn push_parameters(bytes: &mut ArrayVec<u8, ROOM>, colours: Colours, first: u32, colour: u8)
    requires room { array_vec_len bytes.old + 9 ≤ 256 }
    requires small { (first < 100) × (colour < 16) }
    ensures bytes { bytes.new.items ≡ bytes.old.items ++ parameters colours first colour }
    ensures few { array_vec_len bytes.new ≤ array_vec_len bytes.old + 9 }
{
    match colours {
        Colours::Sixteen => push_number(bytes, own_parameter(first, own_number(colour))),
        Colours::Indexed => {
            push_number(bytes, first + 8);
            bytes.push(b';');
            bytes.push(b'5');
            bytes.push(b';');
            push_number(bytes, fixed_index(colour));
        }
    }
}

// The number of `m` that sets one of a terminal's own colours, of which the bright ones stand apart.
fn own_parameter(first: u32, own: u32) -> u32
    requires small { (first < 100) × (own < 16) }
    ensures value { result ≡ own_parameter first own }
    ensures few { result < 1000 }
{
    if own < 8 {
        first + own
    } else {
        first + 52 + own
    }
}

// Adds the digits of a number.
fn push_number(bytes: &mut ArrayVec<u8, ROOM>, number: u32)
    requires room { array_vec_len bytes.old + 3 ≤ 256 }
    requires small { number < 1000 }
    ensures bytes { bytes.new.items ≡ bytes.old.items ++ number_bytes number }
    ensures few { array_vec_len bytes.new ≤ array_vec_len bytes.old + 3 }
{
    if number >= 100 {
        push_digit(bytes, number / 100);
    }
    if number >= 10 {
        push_digit(bytes, number / 10 % 10);
    }
    push_digit(bytes, number % 10);
}

fn push_digit(bytes: &mut ArrayVec<u8, ROOM>, digit: u32)
    requires room { array_vec_len bytes.old < 256 }
    requires small { digit < 10 }
    ensures bytes { bytes.new.items ≡ bytes.old.items ++ (48 + digit) ∷ [] }
    ensures len { array_vec_len bytes.new ≡ array_vec_len bytes.old + 1 }
{
    bytes.push(b'0' + digit as u8);
}
