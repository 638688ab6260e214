// A table that lent arrays hold, and the leaders beside it.
ghost use Rattle.tables.specs.Arrays.{Bounded};

use crate::Size;
use crate::lent::{BenefitTable, LeaderList, LimitList, UsageTable};

#[derive(Clone, Copy)]
pub struct TableView<'a> {
    pub size: Size,
    pub leaders: LeaderList<'a>,
    pub benefits: BenefitTable<'a>,
    pub uses: UsageTable<'a>,
    pub limits: LimitList<'a>,
    pub ghost bounded: { Bounded size },
}
