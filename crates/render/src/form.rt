// Whether bytes are a job list, and whether they look like the text that a job list is made of: so that who hands over the one for the other is told.
ghost use Rattle.std.specs.Prelude.{◌≡◌};
ghost use Rattle.render.specs.Lists.{is_job_list};
ghost use Rattle.render.specs.Form.{is_text, all_text, looks_like_text};

// At most 1,024 records, and each of them whole. The empty list is one.
pub fn is_job_list(list: &[u8]) -> bool
    ensures { result ≡ is_job_list list.now }
{
    (list.len() <= 65536) & (list.len() % 64 == 0)
}

// Not one byte is of a kind that no text has. The bytes that a job record leaves unused are 0, so that a good one never looks like text.
pub fn looks_like_text(bytes: &[u8]) -> bool
    ensures { result ≡ looks_like_text bytes.now }
{
    (bytes.len() > 0) & all_text(bytes)
}

// It stops at the first byte that is none of a text.
fn all_text(bytes: &[u8]) -> bool
    ensures { result ≡ all_text bytes.now }
{
    bytes.iter().all(|byte| is_text(*byte))
}

// From 32 on: printable, or a part of a letter that is none of ASCII; 127 is a control.
fn is_text(byte: u8) -> bool
    ensures { result ≡ is_text byte }
{
    (byte == 9) | (byte == 10) | (byte == 13) | ((byte >= 32) & (byte != 127))
}
