// What a program prints, and what it says of a refusal.
ghost use Rattle.console.specs.Told.{Told};

use verdicts::Refusal;

// What was written to be printed.
#[derive(Drop)]
pub struct Written {
    // How many bytes.
    pub length: usize,
    // The refusal that they tell of.
    pub refusal: Option<Refusal>,
}

// Prints a text, and where it tells of a refusal with a number says on standard error what that means; of a number that no refusal has there is
// nothing to say. Answers whether it tells of one. A text that cannot be written whole is told on standard error too. If that fails there is
// nobody left to tell.
pub fn print(rt: &HostRuntime, program: &[u8], text: &[u8], number: Option<u64>) -> bool
    ensures { Told number result }
{
    if let Err(error) = rt.write_all(text) {
        let _ = eprintln!(rt; "standard output: {error}");
    }
    let Some(number) = number else {
        return false;
    };
    // In four writes, since standard error may keep them apart.
    if let Ok(refusal) = Refusal::try_from(number) {
        let err = rt.stderr();
        let _ = err.write_all(program);
        let _ = err.write_all(b": refused, since ");
        let _ = eprint!(rt; "{refusal}");
        let _ = err.write_all(b"\n");
    }
    true
}
