// What is said of a line, behind the line's number.
ghost use Rattle.std.specs.Prelude.{Some, codes, decimal};
ghost use Rattle.std.specs.Fmt.{◌++?◌};

use std::fmt;

#[derive(Drop)]
pub struct Numbered<'a, D> {
    pub number: u64,
    pub form: &'a D,
}

impl<D: fmt::Display> fmt::Display for Numbered<'_, D> {
    ghost output = { λ n. Some (codes "(line ") ++? Some (decimal n.number) ++? Some (codes " ") ++? D.output n.form.now ++? Some (codes ")") };

    fn fmt<W: fmt::Write>(&self, f: &mut fmt::Formatter<W>) -> fmt::Result {
        write!(f, "(line {} {})", self.number, self.form)
    }
}
