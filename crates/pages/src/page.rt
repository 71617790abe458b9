// The page of an explanation: text put into lent room, one piece behind the other. A text that the room is too short for is left out.
use crate::pieces::Piece;

// Lent room, and how much of it is used.
#[derive(Drop)]
pub(crate) struct Page<'a> {
    pub room: &'a mut [u8],
    pub used: usize,
}

impl Page<'_> {
    // Puts a text.
    pub(crate) fn put(&mut self, text: &[u8]) {
        let end = self.used.saturating_add(text.len());
        if end <= self.room.len() {
            self.room[self.used..end].copy_from_slice(text);
            self.used = end;
        }
    }

    // Puts a piece.
    pub(crate) fn put_piece(&mut self, piece: Piece) {
        self.put(piece.as_slice());
    }

    // Puts a piece so that it ends at a column of the line that began at `start`.
    pub(crate) fn put_right(&mut self, start: usize, column: usize, piece: Piece) {
        let done = self.used.saturating_sub(start);
        let spaces = column.saturating_sub(piece.length).saturating_sub(done);
        for _ in 0..spaces {
            self.put(b" ");
        }
        self.put_piece(piece);
    }
}
