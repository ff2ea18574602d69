//! How much of a description is compared: so little that it doesn't take long, however long the text is.

// The most dialogs of a description.
const MOST_DIALOGS: usize = 16;

// The most views, and the most rules, of a dialog.
const MOST: usize = 64;

/// Whether the dialog at this place among the dialogs, and so many of its views or rules, are within the limits.
pub fn are_few(place: usize, count: usize) -> bool {
    place < MOST_DIALOGS && count <= MOST
}
