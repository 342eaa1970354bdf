//! The bytes that a line may have.
ghost use Rattle.std.specs.Prelude.{◌≡◌};
ghost use Rattle.std.specs.List.{list_all};
ghost use Rattle.bq_lines.specs.Bytes.{is_allowed};

fn is_allowed(byte: u8) -> bool
    ensures { result ≡ is_allowed byte }
{
    (b' ' <= byte && byte <= b'~') || byte == b'\t'
}

/// Tells whether a line may have each of these bytes.
pub fn is_allowed_line(line: &[u8]) -> bool
    ensures { result ≡ list_all is_allowed line.now }
{
    let mut allowed = true;
    for byte in line {
        allowed = allowed & is_allowed(*byte);
    }
    allowed
}
