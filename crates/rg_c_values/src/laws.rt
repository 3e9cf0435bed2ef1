//! What holds of all values and tests, as laws: functions that do nothing, and whose contracts are the laws.

ghost use Rattle.rg_c_values.specs.CNames.{NamesStayApart, NamesAreFree};
ghost use Rattle.rg_c_values.specs.Arrays.{MembersStayApart};
ghost use Rattle.rg_c_values.specs.Items.{ItemsAreRight};
ghost use Rattle.rg_c_values.specs.Laws.{ValuesAreRight, TestsAreRight, StoresAreRight, ValuesAreC, TestsAreC, StoresAreC};

/// What C computes is the value of the language, the truth of its test, and the value that is stored.
pub fn c_computes_the_values()
    ensures values { ValuesAreRight }
    ensures tests { TestsAreRight }
    ensures stores { StoresAreRight }
{}

/// The expressions are well formed, so that C's arithmetic of them is the one that is written down.
pub fn expressions_are_well_formed()
    ensures values { ValuesAreC }
    ensures tests { TestsAreC }
    ensures stores { StoresAreC }
{}

/// Words have different names in C where their names are different, and none of these means something in C or its headers, or may do so. Words of one
/// name in the struct are in one array.
pub fn names_are_names_in_c()
    ensures apart { NamesStayApart }
    ensures free { NamesAreFree }
    ensures members { MembersStayApart }
{}

/// A choice that is written as an item of an array has the value of the item at that index, which is within the array.
pub fn items_are_right()
    ensures { ItemsAreRight }
{}
