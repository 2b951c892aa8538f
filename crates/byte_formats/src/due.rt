//! UTF-8, byte after byte.

ghost use Rattle.std.specs.Prelude.{◌≡◌};
ghost use Rattle.byte_formats.specs.Fields.{utf8_step, lead};

/// What is due of a character that has begun: how many bytes, and in which range the next one lies.
#[derive(Clone, Copy, Debug)]
pub struct Due {
    pub left: usize,
    pub least: u8,
    pub most: u8,
}

/// What is due after one more byte, where `room` bytes may follow it: nothing where no text goes on so.
pub fn due_next(room: usize, due: Due, byte: u8) -> Option<Due>
    ensures { result ≡ utf8_step room due byte }
{
    let next = if due.left == 0 {
        lead_of(byte)?
    } else if byte < due.least || due.most < byte {
        return None;
    } else {
        Due {
            left: due.left - 1,
            least: 128,
            most: 191,
        }
    };
    if room < next.left { None } else { Some(next) }
}

/// What is due after the first byte of a character. Neither surrogates nor overlong forms are characters.
fn lead_of(byte: u8) -> Option<Due>
    ensures { result ≡ lead byte }
{
    let least = match byte {
        224 => 160,
        240 => 144,
        _ => 128,
    };
    let most = match byte {
        237 => 159,
        244 => 143,
        _ => 191,
    };
    match byte {
        0..=127 => Some(Due {
            left: 0,
            least: 128,
            most: 191,
        }),
        128..=193 => None,
        194..=223 => Some(Due {
            left: 1,
            least: 128,
            most: 191,
        }),
        224..=239 => Some(Due {
            left: 2,
            least,
            most,
        }),
        240..=244 => Some(Due {
            left: 3,
            least,
            most,
        }),
        _ => None,
    }
}
