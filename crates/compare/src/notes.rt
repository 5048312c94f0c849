//! Checks the note rows of a blocked answer, each by a direct count.

use crate::announced::Announced;
use crate::brute::usable;
use judges::Proposal;
use search::NoteRow;

// Whether the group of a note row blocks: it is not empty, it has rows of the case only, and the
// sets that some row of it can use are as many as the note row says, and fewer than its rows.
fn does_block(note: &NoteRow, usable: &[u32]) -> bool {
    let mut rest = note.group;
    let mut sets: u32 = 0;
    let mut bit: u32 = 1;
    for mask in usable {
        if note.group & bit != 0 {
            sets |= *mask;
        }
        rest &= !bit;
        bit <<= 1;
    }
    note.group != 0
        && rest == 0
        && sets.count_ones() == u32::from(note.sets)
        && sets.count_ones() < note.group.count_ones()
}

// Whether the descriptor of the note row stands, and its group blocks.
fn is_row_right(note: &NoteRow, announced: &Announced, rows: &[Proposal]) -> bool {
    announced.descriptor(note.descriptor).is_some_and(|d| {
        does_block(note, &usable(&announced.entries, &d, rows))
    })
}

// Whether the descriptors of the note rows rise.
fn do_rise(note: &[NoteRow]) -> bool {
    note.iter()
        .zip(note.iter().skip(1))
        .all(|(row, next)| row.descriptor < next.descriptor)
}

/// Whether the note has one row for each standing descriptor, by rising number, and each is right.
pub(crate) fn is_note_right(note: &[NoteRow], announced: &Announced, rows: &[Proposal]) -> bool {
    note.iter().all(|row| is_row_right(row, announced, rows))
        && note.len() == announced.descriptors.len()
        && do_rise(note)
}
