// Converting a record to its old or its new form. The fields are passed on as bytes: the new form has 0, 2 and 255 in front of those of the old one.
#![tactic(auto)]

ghost use Rattle.std.specs.Prelude.{◌≡◌, true, false, ◌∷◌, ◌≤◌, length, drop};
ghost use Rattle.meaning.specs.Answers.{over};
ghost use Rattle.record_parse.specs.Parse.{read_of};
ghost use Rattle.record.specs.Answers.{written_answer};
ghost use Rattle.record_convert.specs.Converting.{Converted, PassedOn, form_fits};

use refusals::Refusal;

// Has a record with this greatest grey the form that is asked for?
#[tactic(auto, unfolding(crate::specs::Converting::form_fits))]
fn form_fits(new: bool, greatest: u32) -> bool
    ensures { result ≡ form_fits new greatest }
{
    new || greatest == 255
}

// Copies bytes to the front of the output. By a loop: `copy_from_slice` of two lent slices is a call of memmove, which the archive for C does not need from
// outside otherwise.
fn put_front(bytes: &[u8], out: &mut [u8])
    requires { length bytes.now ≤ length out.old }
    ensures { out.new ≡ over bytes.now out.old }
{
    for (i, byte) in bytes.iter().enumerate() {
        out[i] = *byte;
    }
}

// Writes a record as it is; its length.
fn pass_on(bytes: &[u8], out: &mut [u8]) -> Result<usize, Refusal>
    ensures { PassedOn bytes.now out.old out.new (written_answer result) }
{
    let size = bytes.len();
    plate_refusals::check_out(size, out.len())?;
    put_front(bytes, out);
    Ok(size)
}

// Writes a record of the old form in the new form; its length.
fn add_front(bytes: &[u8], out: &mut [u8]) -> Result<usize, Refusal>
    ensures { PassedOn (0 ∷ 2 ∷ 255 ∷ 1 ∷ bytes.now) out.old out.new (written_answer result) }
{
    plate_refusals::check_out(4, out.len())?;
    plate_refusals::check_out(bytes.len(), out.len() - 4)?;
    let size = 4 + bytes.len();
    out[..4].copy_from_slice(&[0, 2, 255, 1]);
    put_front(bytes, &mut out[4..]);
    Ok(size)
}

// Writes a record of the new form, whose greatest grey is 255, in the old form; its length.
fn drop_front(bytes: &[u8], out: &mut [u8]) -> Result<usize, Refusal>
    requires { 4 ≤ length bytes.now }
    ensures { PassedOn (drop 4 bytes.now) out.old out.new (written_answer result) }
{
    pass_on(&bytes[4..], out)
}

// Converts a record to the new form, or to the old one; the length of the record.
fn convert(bytes: &[u8], new: bool, out: &mut [u8], work: &mut [u32]) -> Result<usize, Refusal>
    ensures { Converted new (read_of bytes.now (length work.old))
        out.old out.new work.old work.new (written_answer result) }
{
    let found = record_tree::read_tree(bytes, work)?;
    work_columns::clear(work, found.tree.shape.pixels);
    if !form_fits(new, found.plate.greatest) {
        return Err(Refusal::Form);
    }
    if found.new == new {
        return pass_on(bytes, out);
    }
    if new {
        return add_front(bytes, out);
    }
    drop_front(bytes, out)
}

// Converts a record to the old form. A record that is in it already comes back unchanged. The result is the length of the record.
pub fn to_old_form(bytes: &[u8], out: &mut [u8], work: &mut [u32]) -> Result<usize, Refusal>
    ensures { Converted false (read_of bytes.now (length work.old))
        out.old out.new work.old work.new (written_answer result) }
{
    convert(bytes, false, out, work)
}

// Converts a record to the new form. A record that is in it already comes back unchanged. The result is the length of the record.
pub fn to_new_form(bytes: &[u8], out: &mut [u8], work: &mut [u32]) -> Result<usize, Refusal>
    ensures { Converted true (read_of bytes.now (length work.old))
        out.old out.new work.old work.new (written_answer result) }
{
    convert(bytes, true, out, work)
}
