// Times for the entries of a script's programme.
use crate::answer::Answer;
use crate::command::Expected;
use crate::files::written;
use algebra::{Algebra, House, Instants, NO_HOUSE_RULE, Spans, Standard, Timed};
use programme::Programme;
use qcue::{LONGEST_FILE, load};

/// The first tied pair that the numbers do not meet. A house rule may cut the reading between two times away, so that only bare
/// algebras have times.
pub(crate) fn fits(
    algebra: House<Standard>,
    programme: &Programme<House<Standard>>,
    numbers: &[i32],
) -> Result<Option<(usize, usize)>, Answer> {
    match algebra.below {
        _ if algebra.stamp().house != NO_HOUSE_RULE => Err(Expected::Timed.into()),
        Standard::Instants => fits_over(Instants, programme, numbers),
        Standard::Spans => fits_over(Spans, programme, numbers),
        Standard::Regions => Err(Expected::Timed.into()),
    }
}

// The programme comes over to the bare algebra by its file.
fn fits_over<B: Timed + Copy>(
    algebra: B,
    programme: &Programme<House<Standard>>,
    numbers: &[i32],
) -> Result<Option<(usize, usize)>, Answer> {
    let mut buffer = [0; LONGEST_FILE];
    let mut bare = Programme::open(algebra);
    load(&mut bare, written(programme, &mut buffer)?)?;
    Ok(bare.fits(numbers)?)
}
