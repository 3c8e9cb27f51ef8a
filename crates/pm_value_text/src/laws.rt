//! What holds of the texts of all bytes and of all days.

ghost use Rattle.std.specs.Prelude.{◌≡◌, ◌↔◌, ◌<◌, ◌*◌, ℕ, ℤ, pos, negsuc, List, length, Some, IsUtf8, codes, false};
ghost use Rattle.std.specs.Char.{is_ascii_uppercase};
ghost use Rattle.std.specs.List.{AllByRecursion};
ghost use Rattle.pm_values.specs.Fits.{first_day, last_day};
ghost use Rattle.pm_value_text.specs.Date.{IsDateCharacter, IsDateText, IsDay, date_text, day_in};
ghost use Rattle.pm_value_text.specs.Hexadecimal.{IsLowerDigit, bytes_in, hex_text};

/// Bytes are read again from their digits, and no other text without an upper-case letter reads as
/// them. The digits are two for each byte, ASCII and in lower case.
pub fn digits_law()
    ensures again { (bytes : List ℕ) → AllByRecursion (λ b. b < 256) bytes → bytes_in (hex_text bytes) ≡ Some bytes }
    ensures one_text { (text bytes : List ℕ) → bytes_in text ≡ Some bytes
        → AllByRecursion (λ c. is_ascii_uppercase c ≡ false) text → text ≡ hex_text bytes }
    ensures bytes { (text bytes : List ℕ) → bytes_in text ≡ Some bytes
        → (length text ≡ 2 * length bytes) × AllByRecursion (λ b. b < 256) bytes }
    ensures length { (bytes : List ℕ) → length (hex_text bytes) ≡ 2 * length bytes }
    ensures digits { (bytes : List ℕ) → AllByRecursion (λ b. b < 256) bytes
        → AllByRecursion IsLowerDigit (hex_text bytes) }
    ensures utf8 { (bytes : List ℕ) → IsUtf8 (hex_text bytes) }
{}

/// A text reads as a day exactly where it is that of a civil date with this number. Each day has one
/// text, and is read again from it.
pub fn dates_law()
    ensures named { (text : List ℕ) (day : ℤ) → (day_in text ≡ Some day) ↔ IsDateText text day }
    ensures again { (day : ℤ) → IsDay day → day_in (date_text day) ≡ Some day }
    ensures one_text { (text : List ℕ) (day : ℤ) → day_in text ≡ Some day → IsDay day × (text ≡ date_text day) }
{}

/// The text of a day is ten decimal digits and hyphens.
pub fn date_characters_law()
    ensures length { (day : ℤ) → length (date_text day) ≡ 10 }
    ensures characters { (day : ℤ) → IsDay day → AllByRecursion IsDateCharacter (date_text day) }
    ensures utf8 { (day : ℤ) → IsDay day → IsUtf8 (date_text day) }
{}

/// Days are counted from 1970-01-01, from the first of the year 1 to the last of the year 9999.
pub fn known_days_law()
    ensures first { date_text first_day ≡ codes "0001-01-01" }
    ensures before { date_text (negsuc 0) ≡ codes "1969-12-31" }
    ensures origin { date_text (pos 0) ≡ codes "1970-01-01" }
    ensures after { date_text (pos 1) ≡ codes "1970-01-02" }
    ensures last { date_text last_day ≡ codes "9999-12-31" }
{}
