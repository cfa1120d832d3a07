// What a look tells, as one number: the compiler hands a number back in a register, and a `Result` through memory.
ghost use Rattle.std.specs.Prelude.{◌≡◌, ◌<◌, IfOk};
ghost use Rattle.shapes.specs.Faults.{looked_by};
ghost use Rattle.pools.specs.Word.{told_in, told_by, NoMore};

use books::{Number, Refused};

// The number 0 and above it what the lists lack, or the number that refuses and above it its list and position.
pub(crate) fn word_of(answer: Result<usize, Refused>) -> usize
    requires { IfOk answer (λ lacks. lacks < 524288) }
    ensures told { told_in result ≡ answer }
    ensures alone { (told_by result ≡ looked_by answer) × NoMore result }
{
    match answer {
        Ok(lacks) => 65536 * lacks,
        Err(refused) => {
            let place = usize::from(refused.list) + 65536 * usize::from(refused.position);
            usize::from(u16::from(refused.number)) + 65536 * place
        }
    }
}

// What the number tells. Nearly every pool is sound, so that is asked first, and a refusal is told apart in a function of its own.
pub(crate) fn told(word: usize) -> Result<usize, Refused>
    ensures { result ≡ told_in word }
{
    if word % 65536 == 0 {
        return Ok(word / 65536);
    }
    told_apart(word)
}

// The compiler makes a table of the numbers. It is to stand in the archive once and not in each call.
#[cold]
#[inline(never)]
fn told_apart(word: usize) -> Result<usize, Refused>
    ensures { result ≡ told_in word }
{
    let above = word / 65536;
    match Number::try_from((word % 65536) as u16) {
        Ok(number) => Err(Refused {
            number,
            list: (above % 65536) as u16,
            position: (above / 65536 % 65536) as u16,
        }),
        Err(_) => Ok(above),
    }
}
