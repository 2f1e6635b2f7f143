// The tape in place of `impl RngCore` (tls.rs): the random bytes are lent, and a draw says where on the tape it begins. Tape and place are
// two arguments and no struct, as each definition has them (specs/Tape.antt). In a struct by value each clause would name two fields for
// them (`tape.entry.bytes.now tape.entry.at` for `tape.now at`); with a place in a `&mut Tape` that draws move on, each contract says besides
// that the bytes stay and how far the place moved, and a parameter, whose draws have a place of their own, needs a tape of its own.
#![tactic(auto)]

ghost use Rattle.std.specs.Prelude.{◌≡◌, ◌+◌, ◌%◌, ◌^◌, ◌≤◌, ◌<◌, length};
ghost use Rattle.wire.specs.Front.{Put};
ghost use Rattle.tape.specs.Tape.{rand_bytes, next_u64, shuffle, after_shuffle, grease_id, payload_length, grease_byte, version_information};

// What a writer that draws did: how many bytes it wrote, and the place on the tape after its last draw.
#[derive(Clone, Copy, PartialEq, Eq, Debug)]
pub struct Wrote {
    pub length: usize,
    pub next: usize,
}

// The next 8 bytes as a number, lowest first.
pub fn next_u64(tape: &[u8], at: usize) -> u64
    requires { at + 8 ≤ length tape.now }
    ensures { (result ≡ next_u64 tape.now at) × (result < 2 ^ 64) }
{
    u64::from_le_bytes(*tape[at..].first_chunk().unwrap())
}

// Copies the next n bytes to the front of the output.
pub fn rand_bytes(out: &mut [u8], tape: &[u8], at: usize, n: usize) -> usize
    requires { (n ≤ length out.old) × (at + n ≤ length tape.now) }
    ensures { Put (rand_bytes n tape.now at) result out.old out.new }
{
    wire::put_bytes(out, &tape[at..at + n])
}

// The draw at a place, as a place up to i.
fn place_up_to(tape: &[u8], at: usize, i: usize) -> usize
    requires { (at + 8 ≤ length tape.now) × (i < 65536) }
    ensures { (result ≡ next_u64 tape.now at % (i + 1)) × (result ≤ i) }
{
    (next_u64(tape, at) % (i as u64 + 1)) as usize
}

// Fisher-Yates, from the last place down to 1; gives the place on the tape after its last draw. `next` is a place on the tape and no index.
// Over `(1..v.len()).rev().zip(tape[at..].chunks_exact(8))` the proof stops: of such a loop it is not known which i comes with which chunk.
pub fn shuffle<T>(v: &mut [T], tape: &[u8], at: usize) -> usize
    requires { (length v.old < 65536) × (after_shuffle (length v.old) at ≤ length tape.now) }
    ensures { (result ≡ after_shuffle (length v.old) at) × ((d : T) → v.new ≡ shuffle d v.old tape.now at) }
{
    let mut next = at;
    for i in (1..v.len()).rev() {
        v.swap(i, place_up_to(tape, next, i));
        next += 8;
    }
    next
}

// 2^61 plus the draw's low 58 bits, raised by 0 to 30 until it is 27 mod 31. The Rust's last correction never runs.
pub fn grease_tp_id(draw: u64) -> u64
    ensures { (result ≡ grease_id draw) × (result < 2 ^ 62) }
{
    let id = 2305843009213693952 + draw % 288230376151711744;
    id + (27 + 31 - id % 31) % 31
}

// P, the length of the ECH payload.
pub fn payload_length(draw: u64) -> usize
    ensures { (result ≡ payload_length draw) × (150 ≤ result) × (result ≤ 200) }
{
    150 + (draw % 51) as usize
}

// The high half of a byte kept, the low half 0xa.
fn grease_byte(b: u8) -> u8
    ensures { result ≡ grease_byte b }
{
    b / 16 * 16 + 10
}

// The value of 0x11: the chosen version, four GREASE bytes of one draw, the chosen version among those that are available. The twelve
// bytes are written out: no method puts arrays together without a heap.
pub fn version_information(version: u32, draw: u64) -> [u8; 12]
    ensures { result ≡ version_information version draw }
{
    let [e, f, g, h] = version.to_be_bytes();
    let [a, b, c, d, ..] = draw.to_le_bytes();
    [
        e,
        f,
        g,
        h,
        grease_byte(a),
        grease_byte(b),
        grease_byte(c),
        grease_byte(d),
        e,
        f,
        g,
        h,
    ]
}
