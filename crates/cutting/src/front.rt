//! Takes the piece at the front of an input.

ghost use Rattle.std.specs.Prelude.{◌≡◌, ◌≤◌, ◌||◌, [], length, ◌==◌, slice_index, position, take_while, IfSome, MatchOption};
ghost use Rattle.cutting.specs.Cut.{tag, Records, SetExtent, ModeExtent, Cut, Sizes, OneCutting};
ghost use Rattle.cutting.specs.Pieces.{portion, left, Takes};
ghost use Rattle.std.specs.Iterator.{at_most};

use super::piece::Piece;
use records::Tag;

// How many records a set message has at most.
const MOST: usize = 512;

// How many records a mode message has at most.
const MODE_MOST: usize = 272;

// The whole records at the front of the input, at most so many.
fn records_of(input: &[u8], most: usize) -> &[[u8; 32]]
    ensures { Records input.now most result.now }
{
    let (records, _) = input.as_chunks::<32>();
    &records[..records.len().min(most)]
}

// The place of the first of these records that ends a set message.
fn place_of_end(records: &[[u8; 32]]) -> Option<usize>
    ensures { result ≡ position (λ r. slice_index r 0 == 6) records.now }
{
    records
        .iter()
        .position(|record| record[0] == u8::from(Tag::End))
}

// How many records the set message at the front has, given that a whole record stands there.
fn set_records(input: &[u8]) -> usize
    requires { 32 ≤ length input.now }
    ensures { SetExtent input.now result }
{
    let records = records_of(input, MOST);
    match place_of_end(records) {
        Some(last) => last + 1,
        None => records.len(),
    }
}

// Whether a record with this tag goes on with a mode message.
fn is_of_mode(octet: u8) -> bool
    ensures { result ≡ (octet == 7 || octet == 8) }
{
    octet == u8::from(Tag::Mode) || octet == u8::from(Tag::Element)
}

// How many of these records stand before the first that no mode message has.
fn count_of_mode(records: &[[u8; 32]]) -> usize
    ensures { result ≡ length (take_while (λ r. slice_index r 0 == 7 || slice_index r 0 == 8) records.now) }
{
    records
        .iter()
        .take_while(|record| is_of_mode(record[0]))
        .count()
}

// How many records the mode message at the front has, given that a whole record of tag 7 stands there.
fn mode_records(input: &[u8]) -> usize
    requires whole { 32 ≤ length input.now }
    requires begun { tag input.now 0 ≡ 7 }
    ensures { ModeExtent input.now result }
{
    count_of_mode(records_of(input, MODE_MOST))
}

/// The piece at the front of the input and the rest after it, or none where the input is empty.
pub fn cut(input: &[u8]) -> Option<(Piece<'_>, &[u8])>
    ensures piece { MatchOption result (input.now ≡ []) (λ x. Cut input.now (portion x.0) x.1.now) }
    ensures sizes { IfSome result (λ x. Sizes input.now (portion x.0) x.1.now) }
{
    let Some((record, rest)) = input.split_first_chunk::<32>() else {
        if input.is_empty() {
            return None;
        }
        return Some((Piece::Short(input), &input[input.len()..]));
    };
    match Tag::try_from(record[0]) {
        Ok(Tag::Begin) => {
            let (message, rest) = input.split_at(32 * set_records(input));
            Some((Piece::Set(message), rest))
        }
        Ok(Tag::Mode) => {
            let (message, rest) = input.split_at(32 * mode_records(input));
            Some((Piece::Mode(message), rest))
        }
        _ => Some((Piece::Bad(record), rest)),
    }
}

/// The pieces of an input, from the front on.
#[derive(Drop)]
pub struct Pieces<'a> {
    rest: &'a [u8],
}

impl<'a> Pieces<'a> {
    /// The pieces of this input.
    pub fn of(input: &'a [u8]) -> Pieces<'a>
        ensures { left result ≡ input.now }
    {
        Pieces { rest: input }
    }
}

impl<'a> Iterator for Pieces<'a> {
    type Item = Piece<'a>;

    ghost next_gives = { Takes };

    ghost remaining = { λ s. at_most (length (left s)) };

    fn next(&mut self) -> Option<Piece<'a>> {
        let (piece, rest) = cut(self.rest)?;
        self.rest = rest;
        Some(piece)
    }
}

/// The theorem that an input is cut into pieces in one way alone.
pub fn one_cutting()
    ensures { OneCutting }
{}
