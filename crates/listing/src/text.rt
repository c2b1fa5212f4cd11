// Numbers as text, at the end of a text of fixed room. They are spelled by the kit's `io` and not by `write!`, which
// promises its text only where it succeeds, and never that it does.
ghost use Rattle.std.specs.Prelude.{◌≡◌, ◌++◌, ◌∷◌, [], ◌+◌, ◌≤◌};
ghost use Rattle.arrayvec.specs.ArrayVec.{array_vec_len};
ghost use Rattle.listing.specs.Text.{hex_text, decimal_text};

use arrayvec::ArrayVec;

// A number in hexadecimal, in lower case without prefix, and one byte behind it.
pub fn push_hex<const ROOM: usize>(text: &mut ArrayVec<u8, ROOM>, n: u64, behind: u8)
    requires { array_vec_len text.old + 17 ≤ ROOM }
    ensures bytes { text.new.items ≡ text.old.items ++ (hex_text n ++ (behind ∷ [])) }
    ensures upper_bound { array_vec_len text.new ≤ array_vec_len text.old + 17 }
{
    let mut digits = [0u8; 16];
    let k = io::hex(n, 1, &mut digits);
    text.try_extend_from_slice(&digits[..k]).unwrap();
    text.push(behind);
}

// A number in decimal, and one byte behind it.
pub fn push_decimal<const ROOM: usize>(text: &mut ArrayVec<u8, ROOM>, n: u64, behind: u8)
    requires { array_vec_len text.old + 21 ≤ ROOM }
    ensures bytes { text.new.items ≡ text.old.items ++ (decimal_text n ++ (behind ∷ [])) }
    ensures upper_bound { array_vec_len text.new ≤ array_vec_len text.old + 21 }
{
    let mut digits = [0u8; 20];
    let k = io::decimal(n, &mut digits);
    text.try_extend_from_slice(&digits[..k]).unwrap();
    text.push(behind);
}
