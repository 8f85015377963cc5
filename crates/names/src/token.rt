// Tokens: RFC 9110, section 5.6.2.
ghost use Rattle.std.specs.Prelude.{◌≡◌, ◌≤◌, length};
ghost use Rattle.cells.specs.Spans.{Spans};
ghost use Rattle.names.specs.Names.{token_byte, is_token};

// Bit b is set where the byte b, or b + 64 in the second, is one of a token.
const TOKEN_LOW: u64 = 288068722172624896;

const TOKEN_HIGH: u64 = 6341068274398134270;

pub fn is_token(name: &[u8]) -> bool
    ensures { result ≡ is_token name.now }
{
    (0 < name.len()) & (token_end(name, 0) == name.len())
}

// Where the token bytes end that start at byte at.
pub fn token_end(run: &[u8], at: usize) -> usize
    requires { at ≤ length run.now }
    ensures { Spans token_byte run.now at result }
{
    cells::end(run, at, token_byte)
}

fn token_byte(b: u8) -> bool
    ensures { result ≡ token_byte b }
{
    if b < 64 {
        return (TOKEN_LOW >> b) % 2 == 1;
    }
    if b < 128 {
        return (TOKEN_HIGH >> (b - 64)) % 2 == 1;
    }
    false
}
