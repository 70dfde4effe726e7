// A sheet of grades: a table of the grades of the legs.
//
//     N KINDS GRADES
//
// N stations, the kind of each, and N rows of N grades, from each station to each, 0 for no leg: two hex digits to a
// kind or a grade, and `-` where there are none.
use crate::fault::Fault;
use crate::season::{Question, Sheet};
use crate::words::Words;
use atlas::answer::Answer;
use std::alloc::Global;
use survey::grade::Grade;
use survey::grade_table::GradeTable;
use survey::refusal::Refusal;

// The stations that a row of a table has bytes for.
const ROW: usize = GradeTable::ROW as usize;

#[derive(Drop)]
pub struct GradeSheet {
    kinds: Vec<u8>,
    table: [u8; GradeTable::BYTES],
}

// The grades of so many stations, as a table has them: a row ends where the table has no more place.
fn table_of(count: usize, grades: &[u8]) -> Option<[u8; GradeTable::BYTES]> {
    let width = count.min(ROW);
    let mut table = [0; GradeTable::BYTES];
    for (u, row) in table.chunks_mut(ROW).enumerate().take(count) {
        let from = count.checked_mul(u)?;
        let grades = grades.get(from..from.checked_add(width)?)?;
        for (place, grade) in row.iter_mut().zip(grades) {
            *place = *grade;
        }
    }
    Some(table)
}

impl Sheet for GradeSheet {
    type Label = Grade;

    fn read(heap: Global, mut words: Words<'_>) -> Result<GradeSheet, Fault> {
        let count = words.parse::<usize>()?;
        let kinds = words.bytes(heap)?;
        let grades = words.bytes(heap)?;
        let table = table_of(count, &grades).ok_or_else(|| words.fault())?;
        if kinds.len() != count {
            return Err(words.fault());
        }
        Ok(GradeSheet { kinds, table })
    }

    fn put(&self, question: Question<'_, '_, Grade>) -> Result<Answer, Refusal> {
        question.put(&GradeTable::new(&self.kinds, &self.table))
    }
}
