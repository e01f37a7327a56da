//! Texts of which eight are hashed at once.

ghost use Rattle.std.specs.Prelude.{◌≡◌, ◌≢◌, ◌⊎◌, ℕ, ◌+◌, ◌-◌, ◌<◌, ◌≤◌, List, [], length, take};
ghost use Rattle.std.specs.Prelude.{drop, map, slice_index_or, true, false};
ghost use Rattle.blake2_state.specs.SeveralStates.{input_bytes_at};
ghost use Rattle.b2sum.specs.declared.lanes.Lane.{Lane};
ghost use Rattle.b2sum.specs.LaneStates.{
  TextsAreDoneOrInLanes,
  StateIsAtOffset,
  DigestIsWritten,
  StateIsAtLane,
  LaneIsInText,
};
ghost use Rattle.b2sum.specs.LaneStates.{next_piece_of_lane, lane_after_piece};

use crate::states::{HashState, LaneState};
use blake2_state::StateParameters;
use blake2_state::many::Text;

/// Where a lane is: after the first `at` bytes of the text of this number.
#[derive(Clone, Copy)]
pub(crate) struct Lane {
    text: usize,
    at: usize,
}

/// Writes the digest of each of these texts, with these parameters and no key, at the front of its
/// place in `out`, by eight states. Returns whether it did: not if the parameters are refused, or a
/// text is too long. A lane whose text has ended goes on with the next one. Each text should be at
/// least as long as the next, so that the lanes end together.
pub fn digest_several<H: LaneState>(
    given: &StateParameters<'_>,
    texts: &[&[u8]],
    states: &mut [H],
    out: &mut [[u8; 64]],
) -> bool
    requires states { length states.old ≡ 8 }
    requires number { length out.old ≡ length texts.now }
    ensures right { result ≡ true → (j : ℕ) → j < length texts.now
        → DigestIsWritten (H.digest given.now) given.now.output_size
        (slice_index_or (map (λ t. t.now) texts.now) j []) (slice_index_or out.new j []) }
    ensures refused { result ≡ false → (¬ H.accepts given.now) ⊎ ((j : ℕ) × (j < length texts.now)
        × (H.limit ≤ H.key_count given.now
        + length (slice_index_or (map (λ t. t.now) texts.now) j []))) }
{
    let mut lanes = [Lane { text: 0, at: 0 }; 8];
    let count = texts.len().min(8);
    if !start_all(given, texts, count, &mut lanes, states) {
        return false;
    }
    for next in count..texts.len() {
        let lane = shortest(texts, count, &lanes);
        finish(given, texts, count, lane, &mut lanes, states, out);
        if !start(given, texts[next], &mut states[lane]) {
            return false;
        }
        lanes[lane] = Lane { text: next, at: 0 };
    }
    finish_all(given, texts, count, &mut lanes, states, out);
    true
}

// Initializes a state for a text. Returns whether the parameters are accepted, and the state has
// room for the text.
fn start<H: HashState>(given: &StateParameters<'_>, text: &[u8], state: &mut H) -> bool
    ensures most { result ≡ true → given.now.output_size ≤ 64 }
    ensures started { result ≡ true → StateIsAtOffset H.IsReady H.size H.count H.limit H.future
        given.now.output_size (H.digest given.now) 0 text.now state.new }
    ensures refused { result ≡ false
        → (¬ H.accepts given.now) ⊎ (H.limit ≤ H.key_count given.now + length text.now) }
{
    state.init_given(given) && has_room(state, text)
}

// Returns whether a state has room for a text.
fn has_room<H: HashState>(state: &H, text: &[u8]) -> bool
    requires { H.IsReady state.now }
    ensures room { result ≡ true → H.count state.now + length text.now < H.limit }
    ensures full { result ≡ false → H.limit ≤ H.count state.now + length text.now }
{
    text.len() as u64 <= state.room()
}

// Each of the first lanes begins with the text of its number. Returns whether the parameters are
// accepted, and the states have room for the texts.
fn start_all<H: HashState>(
    given: &StateParameters<'_>,
    texts: &[&[u8]],
    count: usize,
    lanes: &mut [Lane],
    states: &mut [H],
) -> bool
    requires few { (count ≤ 8) × (count ≤ length texts.now) }
    requires number { (length states.old ≡ 8) × (length lanes.old ≡ 8) }
    ensures most { result ≡ true → 0 < count → given.now.output_size ≤ 64 }
    ensures texts { result ≡ true → (j : ℕ) (l : Lane) → j < count
        → (slice_index_or lanes.new j l).text ≡ j }
    ensures within { result ≡ true → (j : ℕ) (l : Lane) → j < count
        → LaneIsInText (map (λ t. t.now) texts.now) (slice_index_or lanes.new j l) }
    ensures states { result ≡ true → (j : ℕ) (l : Lane) (s : H) → j < count
        → StateIsAtLane H.IsReady H.size H.count H.limit H.future given.now.output_size
        (H.digest given.now) (map (λ t. t.now) texts.now) (slice_index_or lanes.new j l)
        (slice_index_or states.new j s) }
    ensures refused { result ≡ false → (¬ H.accepts given.now) ⊎ ((j : ℕ) × (j < length texts.now)
        × (H.limit ≤ H.key_count given.now
        + length (slice_index_or (map (λ t. t.now) texts.now) j []))) }
{
    for j in 0..count {
        if !start(given, texts[j], &mut states[j]) {
            return false;
        }
        lanes[j] = Lane { text: j, at: 0 };
    }
    true
}

// Returns the lane whose text has the fewest bytes left.
fn shortest(texts: &[&[u8]], count: usize, lanes: &[Lane]) -> usize
    requires few { (0 < count) × (count ≤ length lanes.now) }
    requires texts { (j : ℕ) (l : Lane) → j < count
        → (slice_index_or lanes.now j l).text < length texts.now }
    ensures { result < count }
{
    let mut shortest = 0;
    for j in 1..count {
        if bytes_left(texts, lanes[j]) < bytes_left(texts, lanes[shortest]) {
            shortest = j;
        }
    }
    shortest
}

// Returns how many bytes of its text a lane has not absorbed.
fn bytes_left(texts: &[&[u8]], lane: Lane) -> usize
    requires { lane.text < length texts.now }
    ensures { result ≡ length (slice_index_or (map (λ t. t.now) texts.now) lane.text []) - lane.at }
{
    texts[lane.text].len().saturating_sub(lane.at)
}

// The lanes go on until the text of one has ended, whose digest is written.
fn finish<H: LaneState>(
    given: &StateParameters<'_>,
    texts: &[&[u8]],
    count: usize,
    lane: usize,
    lanes: &mut [Lane],
    states: &mut [H],
    out: &mut [[u8; 64]],
)
    requires few { (count ≤ 8) × (lane < count) }
    requires number { (length states.old ≡ 8) × (length lanes.old ≡ 8) }
    requires out { length out.old ≡ length texts.now }
    requires most { given.now.output_size ≤ 64 }
    requires within { (j : ℕ) (l : Lane) → j < count → LaneIsInText (map (λ t. t.now) texts.now)
        (slice_index_or lanes.old j l) }
    requires states { (j : ℕ) (l : Lane) (s : H) → j < count
        → StateIsAtLane H.IsReady H.size H.count H.limit H.future given.now.output_size
        (H.digest given.now) (map (λ t. t.now) texts.now) (slice_index_or lanes.old j l)
        (slice_index_or states.old j s) }
    ensures texts { (j : ℕ) (l : Lane) → j < count
        → (slice_index_or lanes.new j l).text ≡ (slice_index_or lanes.old j l).text }
    ensures within { (j : ℕ) (l : Lane) → j < count → LaneIsInText (map (λ t. t.now) texts.now)
        (slice_index_or lanes.new j l) }
    ensures states { (j : ℕ) (l : Lane) (s : H) → j < count
        → StateIsAtLane H.IsReady H.size H.count H.limit H.future given.now.output_size
        (H.digest given.now) (map (λ t. t.now) texts.now) (slice_index_or lanes.new j l)
        (slice_index_or states.new j s) }
    ensures done { (l : Lane) → DigestIsWritten (H.digest given.now) given.now.output_size
        (slice_index_or (map (λ t. t.now) texts.now) (slice_index_or lanes.old lane l).text [])
        (slice_index_or out.new (slice_index_or lanes.old lane l).text []) }
    ensures others { (t : ℕ) (l : Lane) → t ≢ (slice_index_or lanes.old lane l).text
        → slice_index_or out.new t [] ≡ slice_index_or out.old t [] }
{
    let most = bytes_left(texts, lanes[lane]);
    go_on(given, texts, count, most, lanes, states);
    put_digest(&states[lane], out, lanes[lane].text);
}

// Writes the digest of a state in the place with this number.
fn put_digest<H: HashState>(state: &H, out: &mut [[u8; 64]], number: usize)
    requires ready { H.IsReady state.now }
    requires size { H.size state.now ≤ 64 }
    requires place { number < length out.old }
    ensures here { take (H.size state.now) (slice_index_or out.new number [])
        ≡ H.future state.now [] }
    ensures others { (t : ℕ) → t ≢ number
        → slice_index_or out.new t [] ≡ slice_index_or out.old t [] }
{
    state.write_digest(&mut out[number][..]);
}

// The lanes go on until all their texts have ended, and the digests are written.
fn finish_all<H: LaneState>(
    given: &StateParameters<'_>,
    texts: &[&[u8]],
    count: usize,
    lanes: &mut [Lane],
    states: &mut [H],
    out: &mut [[u8; 64]],
)
    requires few { count ≤ 8 }
    requires number { (length states.old ≡ 8) × (length lanes.old ≡ 8) }
    requires out { length out.old ≡ length texts.now }
    requires most { 0 < count → given.now.output_size ≤ 64 }
    requires within { (j : ℕ) (l : Lane) → j < count → LaneIsInText (map (λ t. t.now) texts.now)
        (slice_index_or lanes.old j l) }
    requires states { (j : ℕ) (l : Lane) (s : H) → j < count
        → StateIsAtLane H.IsReady H.size H.count H.limit H.future given.now.output_size
        (H.digest given.now) (map (λ t. t.now) texts.now) (slice_index_or lanes.old j l)
        (slice_index_or states.old j s) }
    requires begun { TextsAreDoneOrInLanes (H.digest given.now) given.now.output_size
        (map (λ t. t.now) texts.now) out.old lanes.old 0 count (length texts.now) }
    ensures { (t : ℕ) → t < length texts.now
        → DigestIsWritten (H.digest given.now) given.now.output_size
        (slice_index_or (map (λ t. t.now) texts.now) t []) (slice_index_or out.new t []) }
{
    for lane in 0..count {
        finish(given, texts, count, lane, lanes, states, out);
    }
}

// Each lane absorbs at most so many bytes more of its text.
fn go_on<H: LaneState>(
    given: &StateParameters<'_>,
    texts: &[&[u8]],
    count: usize,
    most: usize,
    lanes: &mut [Lane],
    states: &mut [H],
)
    requires few { count ≤ 8 }
    requires number { (length states.old ≡ 8) × (length lanes.old ≡ 8) }
    requires within { (j : ℕ) (l : Lane) → j < count → LaneIsInText (map (λ t. t.now) texts.now)
        (slice_index_or lanes.old j l) }
    requires states { (j : ℕ) (l : Lane) (s : H) → j < count
        → StateIsAtLane H.IsReady H.size H.count H.limit H.future given.now.output_size
        (H.digest given.now) (map (λ t. t.now) texts.now) (slice_index_or lanes.old j l)
        (slice_index_or states.old j s) }
    ensures lanes { (j : ℕ) (l : Lane) → j < count → slice_index_or lanes.new j l
        ≡ lane_after_piece (map (λ t. t.now) texts.now) most (slice_index_or lanes.old j l) }
    ensures within { (j : ℕ) (l : Lane) → j < count → LaneIsInText (map (λ t. t.now) texts.now)
        (slice_index_or lanes.new j l) }
    ensures states { (j : ℕ) (l : Lane) (s : H) → j < count
        → StateIsAtLane H.IsReady H.size H.count H.limit H.future given.now.output_size
        (H.digest given.now) (map (λ t. t.now) texts.now) (slice_index_or lanes.new j l)
        (slice_index_or states.new j s) }
{
    let pieces = pieces_of(texts, count, most, lanes);
    H::update_several(&mut states[..count], &pieces[..count]);
    move_on(texts, count, most, lanes);
    // They are taken apart, since a text is not dropped.
    let [a, b, c, d, e, f, g, h] = pieces;
    let_go(a);
    let_go(b);
    let_go(c);
    let_go(d);
    let_go(e);
    let_go(f);
    let_go(g);
    let_go(h);
}

// Returns for each of the first lanes at most so many bytes of its text, from its place on, and no
// bytes for the others.
fn pieces_of<'a>(texts: &[&'a [u8]], count: usize, most: usize, lanes: &[Lane]) -> [Text<'a>; 8]
    requires few { (count ≤ 8) × (count ≤ length lanes.now) }
    requires within { (j : ℕ) (l : Lane) → j < count → LaneIsInText (map (λ t. t.now) texts.now)
        (slice_index_or lanes.now j l) }
    ensures number { length result ≡ 8 }
    ensures pieces { (j : ℕ) (l : Lane) → j < count → input_bytes_at result j
        ≡ next_piece_of_lane (map (λ t. t.now) texts.now) most (slice_index_or lanes.now j l) }
{
    let mut pieces = [
        Text { bytes: &[] },
        Text { bytes: &[] },
        Text { bytes: &[] },
        Text { bytes: &[] },
        Text { bytes: &[] },
        Text { bytes: &[] },
        Text { bytes: &[] },
        Text { bytes: &[] },
    ];
    for j in 0..count {
        pieces[j].bytes = piece_of(texts, most, lanes[j]);
    }
    pieces
}

// The same of one lane.
fn piece_of<'a>(texts: &[&'a [u8]], most: usize, lane: Lane) -> &'a [u8]
    requires { LaneIsInText (map (λ t. t.now) texts.now) lane }
    ensures { result.now ≡ next_piece_of_lane (map (λ t. t.now) texts.now) most lane }
{
    let rest = &texts[lane.text][lane.at..];
    &rest[..most.min(rest.len())]
}

// Each of the first lanes goes on by at most so many bytes.
fn move_on(texts: &[&[u8]], count: usize, most: usize, lanes: &mut [Lane])
    requires few { count ≤ length lanes.old }
    requires within { (j : ℕ) (l : Lane) → j < count → LaneIsInText (map (λ t. t.now) texts.now)
        (slice_index_or lanes.old j l) }
    ensures { (j : ℕ) (l : Lane) → j < count → slice_index_or lanes.new j l
        ≡ lane_after_piece (map (λ t. t.now) texts.now) most (slice_index_or lanes.old j l) }
{
    for j in 0..count {
        lanes[j].at = end_of(texts, most, lanes[j]);
    }
}

// Returns the place in its text of a lane that goes on by at most so many bytes.
fn end_of(texts: &[&[u8]], most: usize, lane: Lane) -> usize
    requires { LaneIsInText (map (λ t. t.now) texts.now) lane }
    ensures { result ≡ (lane_after_piece (map (λ t. t.now) texts.now) most lane).at }
{
    texts[lane.text].len() - bytes_left(texts, lane).saturating_sub(most)
}

fn let_go(text: Text<'_>) {
    let Text { bytes: _ } = text;
}
