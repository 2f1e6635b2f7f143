// Records of a blob (`split_records` of fingerprint.rs): two bytes of length, highest first, then so many bytes. Document 01, question 27.
#![tactic(auto)]

ghost use Rattle.std.specs.Prelude.{◌≡◌};
ghost use Rattle.records.specs.Records.{record_of, Finds};

use wire::Refusal;

// Says what stands at a place: a record, with the place after it, or none at the end. Refusal 27 for a place past the blob's end, and
// for a record that is cut.
pub fn next_record(blob: &[u8], place: usize) -> Result<Option<usize>, Refusal>
    ensures { Finds blob.now place result }
{
    if blob.len() < place {
        return Err(Refusal::RecordCut);
    }
    if blob.len() - place < 2 {
        return Ok(None);
    }
    let start = place + 2;
    let length = wire::be16(&blob[place..]) as usize;
    if blob.len() - start < length {
        return Err(Refusal::RecordCut);
    }
    Ok(Some(start + length))
}

// Hands back the record at a place as a part of the blob, without its length; an empty part at the end and at a refusal. Document 01 asks for
// two calls, by places: `next_record` says which of the three it is.
pub fn split_records<'a>(blob: &'a [u8], place: usize) -> &'a [u8]
    ensures { result.now ≡ record_of blob.now place }
{
    match next_record(blob, place) {
        Ok(Some(after)) => {
            let start = place + 2;
            &blob[start..after]
        }
        Ok(None) => &blob[0..0],
        Err(_) => &blob[0..0],
    }
}
