// Printing that goes on where it fails: what standard output does not take is lost.
#![tactic(auto)]

ghost use Rattle.std.specs.Prelude.{◌≡◌, Ok};

use std::fmt::Display;
use std::io;

// Prints as the runtime inside does, and tells of no failure: where nothing takes the text, there is nobody to be told.
#[derive(Drop)]
pub struct Spill<'a, R> {
    pub rt: &'a R,
}

impl<R: Print> Print for Spill<'_, R> {
    fn print<D: Display + Drop>(&self, value: D) -> io::Result<()>
        ensures { result ≡ Ok tt }
    {
        let _ = self.rt.print(value);
        Ok(())
    }

    fn println<D: Display + Drop>(&self, value: D) -> io::Result<()>
        ensures { result ≡ Ok tt }
    {
        let _ = self.rt.println(value);
        Ok(())
    }

    fn write_all(&self, bytes: &[u8]) -> io::Result<()>
        ensures { result ≡ Ok tt }
    {
        let _ = self.rt.write_all(bytes);
        Ok(())
    }
}
