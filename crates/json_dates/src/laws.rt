//! Laws of the definitions. The functions do nothing: the contract of each is a law.
ghost use Rattle.std.specs.Prelude.{◌≡◌, ◌+ℤ◌, ℕ, ℤ, pos, List, codes, IsTrue};
ghost use Rattle.json_dates.specs.Civil.{IsDateText, is_printed_day, date_text, next_date_text};

/// The text of a printed day is that of a date of the calendar.
pub fn each_day_has_a_date()
    ensures { (day : ℤ) → IsTrue (is_printed_day day)
        → (year : ℕ) × (month : ℕ) × (of_month : ℕ)
        × IsDateText (date_text day) year month of_month }
{}

/// Each date of the calendar in the years 0000 to 9999 is the text of a printed day.
pub fn each_date_has_a_day()
    ensures { (text : List ℕ) (year month of_month : ℕ) → IsDateText text year month of_month
        → (day : ℤ) × IsTrue (is_printed_day day) × (date_text day ≡ text) }
{}

/// Day 0 is 1970-01-01.
pub fn day_0_is_the_first_of_1970()
    ensures { date_text (pos 0) ≡ codes "1970-01-01" }
{}

/// The day after a printed day has the date after that day's, if it is printed too.
pub fn the_next_day_has_the_next_date()
    ensures { (day : ℤ) (year month of_month : ℕ)
        → IsTrue (is_printed_day day) → IsTrue (is_printed_day (day +ℤ pos 1))
        → IsDateText (date_text day) year month of_month
        → date_text (day +ℤ pos 1) ≡ next_date_text year month of_month }
{}
