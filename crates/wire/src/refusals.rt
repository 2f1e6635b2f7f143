// Why a call does not give its result: the first question of document 01 to which the answer is "no". Each has a number there.
ghost use Rattle.std.specs.Prelude.{◌≡◌};
ghost use Rattle.wire.specs.Answer.{IsNumber};
ghost use Rattle.wire.specs.Refusals.{question};

use std::fmt;

#[derive(Clone, Copy, PartialEq, Eq, Debug)]
pub enum Refusal {
    ValueTooLarge,
    NoRoomForVarint,
    VarintCut,
    UnknownProfile,
    NameLength,
    NameByte,
    ConnectionIdTooLong,
    TapeTooShort,
    NoRoomForHello,
    BuffersTooShort,
    UnknownFrame,
    FrameCut,
    FramePastLimit,
    FramesDisagree,
    StreamGap,
    HelloTooLong,
    NoClientHello,
    WrongLength,
    FieldMalformed,
    ExtensionCut,
    ExtensionMalformed,
    ParameterTwice,
    ListTooLong,
    FrameSize,
    HelloTooLongToCut,
    NoRoomForFrames,
    RecordCut,
}

impl Refusal {
    // The number of the question. A method and no `From`: `u64::from(refusal)` would not say which number is meant.
    pub fn number(self) -> u64
        ensures is { result ≡ question self }
        ensures known { IsNumber result }
    {
        match self {
            Refusal::ValueTooLarge => 1,
            Refusal::NoRoomForVarint => 2,
            Refusal::VarintCut => 3,
            Refusal::UnknownProfile => 4,
            Refusal::NameLength => 5,
            Refusal::NameByte => 6,
            Refusal::ConnectionIdTooLong => 7,
            Refusal::TapeTooShort => 8,
            Refusal::NoRoomForHello => 9,
            Refusal::BuffersTooShort => 10,
            Refusal::UnknownFrame => 11,
            Refusal::FrameCut => 12,
            Refusal::FramePastLimit => 13,
            Refusal::FramesDisagree => 14,
            Refusal::StreamGap => 15,
            Refusal::HelloTooLong => 16,
            Refusal::NoClientHello => 17,
            Refusal::WrongLength => 18,
            Refusal::FieldMalformed => 19,
            Refusal::ExtensionCut => 20,
            Refusal::ExtensionMalformed => 21,
            Refusal::ParameterTwice => 22,
            Refusal::ListTooLong => 23,
            Refusal::FrameSize => 24,
            Refusal::HelloTooLongToCut => 25,
            Refusal::NoRoomForFrames => 26,
            Refusal::RecordCut => 27,
        }
    }
}

impl fmt::Display for Refusal {
    fn fmt<W: fmt::Write>(&self, f: &mut fmt::Formatter<W>) -> fmt::Result {
        f.write_str(match self {
            Refusal::ValueTooLarge => "the value is 2^62 or more",
            Refusal::NoRoomForVarint => "the output is shorter than the varint",
            Refusal::VarintCut => "bytes of the varint are missing",
            Refusal::UnknownProfile => "the profile is not 0, 1 or 2",
            Refusal::NameLength => "the name does not have 1 to 255 bytes",
            Refusal::NameByte => "a byte of the name is not from 33 to 126",
            Refusal::ConnectionIdTooLong => "the connection id has more than 20 bytes",
            Refusal::TapeTooShort => "the tape is shorter than the profile needs",
            Refusal::NoRoomForHello => "the output is shorter than the longest hello",
            Refusal::BuffersTooShort => "output and marks need 16,384 bytes each",
            Refusal::UnknownFrame => "a frame of an unknown type",
            Refusal::FrameCut => "bytes of a frame are missing",
            Refusal::FramePastLimit => "a frame ends past 16,384",
            Refusal::FramesDisagree => "a frame has another byte for a place that is filled",
            Refusal::StreamGap => "a place below the end is not filled",
            Refusal::HelloTooLong => "the hello has more than 16,384 bytes",
            Refusal::NoClientHello => "the first byte is not 01, or there is none",
            Refusal::WrongLength => "the 3-byte length is not that of the rest",
            Refusal::FieldMalformed =>
                "a field before the extensions, or the block's length, is not in its form",
            Refusal::ExtensionCut => "an extension is not wholly inside the block",
            Refusal::ExtensionMalformed =>
                "an extension's type stands twice, or its body is not in its form",
            Refusal::ParameterTwice => "a parameter id stands twice",
            Refusal::ListTooLong => "a list has more than 64 entries, or 16 ALPN names",
            Refusal::FrameSize => "c is not from 1 to 16,384",
            Refusal::HelloTooLongToCut => "the hello has more than 16,384 bytes",
            Refusal::NoRoomForFrames => "the output is shorter than the frames",
            Refusal::RecordCut =>
                "the place is past the blob's end, or bytes of the record are missing",
        })
    }
}
