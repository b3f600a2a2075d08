// Functions as formulas call them.
ghost use Rattle.formula_ast.specs.declared.func.Func.TheVariants as func;
ghost use Rattle.form_truth.specs.Laws.{CallIsRight, SummedIsRight};
ghost use Rattle.form_truth.specs.Table.{TableIsRight};
ghost use Rattle.form_truth.specs.Picks.{AcrossIsRight, CertainIsFound, CertainIsFoundAcross, CertainIsPicked, CertainIsSummed, FoundIsRight, IndexIsRight, LookupIsRight, PlacesAreRight};
ghost use Rattle.form_truth.specs.Products.{MatrixProductIsRight, SumProductIsRight};

/// All operators, and all functions but the seven that look at one argument after the other or pick from a reference: what is given is
/// their value under every assignment.
pub fn table_is_right()
    ensures { TableIsRight }
{}

/// SUM, AVERAGE, COUNT, MIN and MAX.
pub fn functions_of_items_are_right()
    ensures sum { CallIsRight func.Sum }
    ensures average { CallIsRight func.Average }
    ensures count { CallIsRight func.Count }
    ensures least { CallIsRight func.Min }
    ensures greatest { CallIsRight func.Max }
{}

/// ABS, INT, MOD, ROUND and POWER.
pub fn functions_of_numbers_are_right()
    ensures magnitude { CallIsRight func.Abs }
    ensures rounded_down { CallIsRight func.Int }
    ensures remainder { CallIsRight func.Mod }
    ensures rounded { CallIsRight func.Round }
    ensures power { CallIsRight func.Power }
{}

/// AND, OR, NOT, TRUE and FALSE.
pub fn functions_of_logicals_are_right()
    ensures all { CallIsRight func.And }
    ensures some { CallIsRight func.Or }
    ensures reversed { CallIsRight func.Not }
    ensures always { CallIsRight func.True }
    ensures never { CallIsRight func.False }
{}

/// N, ISNUMBER and ISBLANK.
pub fn tests_of_values_are_right()
    ensures number { CallIsRight func.N }
    ensures is_number { CallIsRight func.IsNumber }
    ensures is_blank { CallIsRight func.IsBlank }
{}

/// TRANSPOSE, ROWS and COLUMNS; which elements SUMIF adds, their sum, and the error that certainly is among them.
pub fn functions_of_areas_are_right()
    ensures transposed { CallIsRight func.Transpose }
    ensures rows { CallIsRight func.Rows }
    ensures columns { CallIsRight func.Columns }
    ensures met { PlacesAreRight }
    ensures certain { CertainIsSummed }
    ensures summed { SummedIsRight }
{}

/// SUMPRODUCT and MMULT, of which a product bends where there is no form.
pub fn products_are_right()
    ensures sum_of_products { SumProductIsRight }
    ensures matrix_product { MatrixProductIsRight }
{}

/// MATCH and COUNTIF; what MATCH finds of a key, keys and a kind; which part of a grid INDEX picks, and the error that it certainly
/// picks; and which record and field VLOOKUP and HLOOKUP find, and the error that they certainly find.
pub fn searches_are_right()
    ensures place { CallIsRight func.Match }
    ensures how_many { CallIsRight func.CountIf }
    ensures found { FoundIsRight }
    ensures picked { IndexIsRight }
    ensures certain { CertainIsPicked }
    ensures down { LookupIsRight }
    ensures across { AcrossIsRight }
    ensures certain_down { CertainIsFound }
    ensures certain_across { CertainIsFoundAcross }
{}
