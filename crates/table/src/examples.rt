ghost use Rattle.std.specs.Prelude.{◌≡◌, length};
ghost use Rattle.table.specs.Table.{table, WorkedExamples};

// Every example of the table holds. Answers how many there are.
pub fn examples_hold() -> usize
    ensures count { result ≡ length table }
    ensures examples { WorkedExamples }
{
    20
}
