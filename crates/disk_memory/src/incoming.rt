//! Bytes that come piece by piece.
ghost use Rattle.std.specs.Prelude.{◌≡◌, ◌↔◌, ◌++◌, ◌<◌, ◌≤◌, [], take, drop, length, min};
ghost use Rattle.disk_memory.specs.Pieces.{joined, piece_at, AtByte};

/// Pieces of bytes, and the place up to which they were given.
#[derive(Debug, Drop)]
pub struct Incoming {
    pieces: Vec<Vec<u8>>,
    piece: usize,
    offset: usize,
    ghost within: { offset ≤ length (piece_at pieces.items piece) },
}

impl Incoming {
    ghost use Rattle.disk_memory.specs.Incoming.{heard_of, left_of, next_of, pieces_of};

    /// No byte was given yet.
    pub fn new(pieces: Vec<Vec<u8>>) -> Incoming
        ensures heard { heard_of result ≡ [] }
        ensures left { left_of result ≡ joined pieces.items }
        ensures pieces { pieces_of result ≡ pieces.items }
    {
        Incoming {
            pieces,
            piece: 0,
            offset: 0,
        }
    }

    // What is left of the piece at the place.
    fn rest(&self) -> &[u8]
        ensures rest { result.now ≡ drop self.now.offset (piece_at self.now.pieces.items self.now.piece) }
        ensures within { self.now.offset ≤ length (piece_at self.now.pieces.items self.now.piece) }
    {
        match self.pieces.get(self.piece) {
            Some(piece) => &piece[self.offset..],
            None => &[],
        }
    }

    // Goes on to the next byte that is left.
    fn pass_over(&mut self)
        ensures heard { heard_of self.new ≡ heard_of self.old }
        ensures left { left_of self.new ≡ left_of self.old }
        ensures next { next_of self.new ≡ next_of self.old }
        ensures pieces { self.new.pieces ≡ self.old.pieces }
        ensures there { AtByte self.new.pieces.items self.new.piece self.new.offset }
    {
        while self.piece < self.pieces.len() && self.rest().is_empty() {
            self.piece += 1;
            self.offset = 0;
        }
    }

    /// Puts the next bytes, which are of one piece, at the front of the room, and answers how many.
    pub fn read(&mut self, room: &mut [u8]) -> usize
        ensures count { result ≡ min (length room.new) (length (next_of self.old)) }
        ensures left { left_of self.old ≡ take result room.new ++ left_of self.new }
        ensures heard { heard_of self.new ≡ heard_of self.old ++ take result room.new }
        ensures pieces { pieces_of self.new ≡ pieces_of self.old }
        ensures end { (next_of self.old ≡ []) ↔ (left_of self.old ≡ []) }
    {
        self.pass_over();
        let rest = self.rest();
        let count = rest.len().min(room.len());
        room[..count].copy_from_slice(&rest[..count]);
        self.offset += count;
        count
    }
}
