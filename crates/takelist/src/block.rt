// A block of whole records, and their lines.
ghost use Rattle.std.specs.Prelude.{◌≡◌, ◌+◌, ◌*◌, ◌^◌, ◌≤◌, ◌<◌, ◌++◌};
ghost use Rattle.arrayvec.specs.ArrayVec.{array_vec_len};
ghost use Rattle.take_rules.specs.Box.{tells_of, follows};
ghost use Rattle.capture_rules.specs.Fold.{event_of, answers_in, whole_records, captured};
ghost use Rattle.lines.specs.Lines.{line_room};
ghost use Rattle.takelist.specs.Block.{box_of, answer_line, lines_of};

use arrayvec::ArrayVec;
use capture_rules::RECORD;
use take_rules::{Take, Tally};

// What is kept from one record to the next, beside the track.
#[derive(Clone, Copy)]
pub struct Follower {
    pub take: Take,
    pub tally: Tally,
}

impl Follower {
    // One record, which has an index in the capture, and its line.
    fn record<const CAP: usize>(
        &mut self,
        index: u64,
        heard: &[u8; RECORD],
        lines: &mut ArrayVec<u8, CAP>,
        track: &mut [u8],
    )
        requires { array_vec_len lines.old + line_room ≤ CAP }
        ensures state { box_of self.new track.new ≡ follows (box_of self.old track.old) (event_of heard.now) }
        ensures text { lines.new.items ≡ lines.old.items ++ answer_line index (tells_of (box_of self.old track.old) (event_of heard.now)) }
        ensures within { array_vec_len lines.new ≤ array_vec_len lines.old + line_room }
    {
        let followed = capture::follow(self.take, &mut self.tally, heard, track);
        self.take = followed.take;
        let told = followed.told;
        lines::line(
            index,
            u8::from(told.answer),
            told.place,
            told.frames,
            told.skipped,
            lines,
        );
    }

    // The whole records of a block, of which the first has an index in the capture.
    pub fn block<const CAP: usize>(
        &mut self,
        index: u64,
        block: &[u8],
        lines: &mut ArrayVec<u8, CAP>,
        track: &mut [u8],
    )
        requires index { index < 2 ^ 63 }
        requires room { array_vec_len lines.old + whole_records block.now * line_room ≤ CAP }
        ensures state { box_of self.new track.new ≡ captured (box_of self.old track.old) block.now }
        ensures text { lines.new.items ≡ lines.old.items ++ lines_of index (answers_in (box_of self.old track.old) block.now (whole_records block.now)) }
    {
        let (records, _) = block.as_chunks::<RECORD>();
        for (i, heard) in records.iter().enumerate() {
            self.record(index + i as u64, heard, lines, track);
        }
    }
}
