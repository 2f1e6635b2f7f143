// The archive of the C library: the calls of `crustdelta_c` as include/crustdelta.h declares them, numbers and byte slices with C's
// calling convention. Each promises what the library's call of the same name does.
#![tactic(auto)]

ghost use Rattle.std.specs.Prelude.{◌≡◌, cond};
ghost use Rattle.fingerprint.specs.Reader.{read};
ghost use Rattle.fingerprint_layout.specs.Layout.{ReportCoded};
ghost use Rattle.alike.specs.Alike as definition;
ghost use Rattle.crustdelta_c.specs.Calls.{length_of, MakeCoded, read_answer, JoinCoded, CutCoded};

// Makes a hello: its length.
#[unsafe(no_mangle)]
pub extern "C" fn crustdelta_make(
    profile: u64,
    name: &[u8],
    scid: &[u8],
    tape: &[u8],
    out: &mut [u8],
) -> u64
    ensures { MakeCoded length_of profile name.now scid.now tape.now out.old result out.new }
{
    crustdelta_c::crustdelta_make(profile, name, scid, tape, out)
}

// Reads a hello: 0. No report is built.
#[unsafe(no_mangle)]
pub extern "C" fn crustdelta_read(hello: &[u8]) -> u64
    ensures { result ≡ read_answer (read hello.now) }
{
    crustdelta_c::crustdelta_read(hello)
}

// Reads a hello and writes its report, straight from the hello's bytes: the report's length. Where the report does not fit, the number is
// 100, which no question of document 01 has.
#[unsafe(no_mangle)]
pub extern "C" fn crustdelta_report(hello: &[u8], out: &mut [u8]) -> u64
    ensures { ReportCoded (read hello.now) out.old result out.new }
{
    crustdelta_c::crustdelta_report(hello, out)
}

// Joins frames: the end of the stream.
#[unsafe(no_mangle)]
pub extern "C" fn crustdelta_join(frames: &[u8], out: &mut [u8], marks: &mut [u8]) -> u64
    ensures { JoinCoded frames.now out.old marks.old result out.new marks.new }
{
    crustdelta_c::crustdelta_join(frames, out, marks)
}

// Cuts a hello into frames of c bytes of data each: their length in all.
#[unsafe(no_mangle)]
pub extern "C" fn crustdelta_frames(c: u64, hello: &[u8], out: &mut [u8]) -> u64
    ensures { CutCoded c hello.now out.old result out.new }
{
    crustdelta_c::crustdelta_frames(c, hello, out)
}

// Whether two hellos are alike: 1 or 0.
#[unsafe(no_mangle)]
pub extern "C" fn crustdelta_alike(a: &[u8], b: &[u8]) -> u64
    ensures { result ≡ cond (definition.alike (read a.now) (read b.now)) 1 0 }
{
    crustdelta_c::crustdelta_alike(a, b)
}
