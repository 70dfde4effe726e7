// The networks of planned calls: notebooks as leg lists, layers over them, and tables of grades.
use crate::mistake::Mistake;
use crate::notebook::Notebook;
use crate::plan::Layer;
use crate::written::Written;
use std::alloc::Global;
use survey::both_ways::BothWays;
use survey::either::Either;
use survey::grade::Grade;
use survey::grade_table::GradeTable;
use survey::leg_list::LegList;
use survey::turned::Turned;
use survey::without::Without;

// A notebook as read, both ways, turned, or both ways without a station.
pub type Listed<'a, L> = Either<
    LegList<'a, L>,
    Either<
        BothWays<LegList<'a, L>>,
        Either<Turned<LegList<'a, L>>, Without<BothWays<LegList<'a, L>>>>,
    >,
>;

// A table of grades, or a notebook of grades.
pub type Graded<'a> = Either<GradeTable<'a>, Listed<'a, Grade>>;

pub fn listed<'a, L: Written + Drop>(book: &'a Notebook<L>, layer: Layer) -> Listed<'a, L> {
    let net = book.network();
    match layer {
        Layer::AsRead | Layer::Table => Either::Left(net),
        Layer::BothWays => Either::Right(Either::Left(BothWays::new(net))),
        Layer::Turned => Either::Right(Either::Right(Either::Left(Turned::new(net)))),
        Layer::Without { station } => {
            let mask = 1u64.checked_shl(station).unwrap_or(0);
            Either::Right(Either::Right(Either::Right(Without::new(BothWays::new(net), mask))))
        }
    }
}

pub fn graded<'a>(book: &'a Notebook<Grade>, table: &'a [u8], layer: Layer) -> Graded<'a> {
    match layer {
        Layer::Table => Either::Left(GradeTable::new(book.kinds(), table)),
        _ => Either::Right(listed(book, layer)),
    }
}

// The table of a notebook's grades. The first leg between two stations counts, as in a leg list.
pub fn table(heap: Global, book: &Notebook<Grade>) -> Result<Vec<u8>, Mistake> {
    let mut bytes: Vec<u8> = vec![in heap; 0; GradeTable::BYTES]?;
    for leg in book.legs() {
        if leg.from < GradeTable::ROW && leg.to < GradeTable::ROW {
            let place = GradeTable::ROW as usize * leg.from as usize + leg.to as usize;
            if let Some(grade) = bytes.get_mut(place) {
                if *grade == 0 {
                    *grade = leg.label.value;
                }
            }
        }
    }
    Ok(bytes)
}
