// Numbers and names by example.
ghost use Rattle.made_up_books.specs.Examples.{FirstNames, FirstNumbers};

/// The numbers that are drawn for the sizes 1 and 2.
pub fn first_numbers()
    ensures { FirstNumbers }
{}

/// The texts of the names for the sizes 1 and 2.
pub fn first_names()
    ensures { FirstNames }
{}
