// Examples of partner tables, on each kind of table.
#![tactic(auto)]

#[cfg(test)]
mod tests {
    use chain::ChainTable;
    use front::FrontTable;
    use std::alloc::{AllocError, Global};
    use std::test::Fail;
    use table::partner::PartnerTable;
    use table::put::PutRefusal;
    use table::rows::Rows;
    use table::scan::ScanTable;
    use tablelaws::changes::{Change, alike, perform};
    use tablelaws::visits::visit;
    use terms::Operand;

    // What holds a front of any table asks nothing of that table.
    #[derive(Drop)]
    struct Held<P> {
        front: FrontTable<P>,
    }

    // A record of symbol 3 that is open by a variable, one with the key 7, one with the key 8, and one with no argument.
    fn keyed<P: PartnerTable>(table: &mut P) -> Result<(), PutRefusal> {
        table.put(8, 3, &[Operand::Variable(1)])?;
        table.put(10, 3, &[Operand::Value(7)])?;
        table.put(12, 3, &[Operand::Value(8), Operand::Value(7)])?;
        table.put(14, 3, &[])
    }

    // Puts `count` records under the identifiers from `from` on, as far as there is room.
    fn fill<P: PartnerTable>(table: &mut P, from: u32, count: u32, symbol: u8) {
        for identifier in from..from.saturating_add(count) {
            let _ = table.put(identifier, symbol, &[]);
        }
    }

    #[test]
    fn an_open_record_answers_to_every_key(rt: HostRuntime) -> Result<(), Fail> {
        let mut table = ScanTable::new(rt.alloc())?;
        keyed(&mut table)?;
        assert_eq!(rt; table.next(Some(3), Some(9), 0), Some(8));
        assert_eq!(rt; table.next(Some(3), Some(9), 8), Some(14));
        assert_eq!(rt; table.next(Some(3), Some(8), 8), Some(12));
        assert_eq!(rt; table.next(None, Some(7), 8), Some(10));
        assert_eq!(rt; table.next(Some(4), None, 0), None);
        Ok(())
    }

    #[test]
    fn a_chain_closes_over_its_head_middle_and_end(rt: HostRuntime) -> Result<(), Fail> {
        let mut table = ChainTable::new(rt.alloc())?;
        keyed(&mut table)?;
        assert!(rt; table.remove(10) && table.remove(8) && table.remove(14) && !table.remove(14));
        assert_eq!(rt; table.next(Some(3), None, 0), Some(12));
        assert_eq!(rt; table.next(Some(3), None, 12), None);
        assert_eq!(rt; table.put(9, 3, &[]), Ok(()));
        assert_eq!(rt; table.next(Some(3), None, 0), Some(9));
        assert_eq!(rt; table.next(Some(3), None, 9), Some(12));
        Ok(())
    }

    #[test]
    fn a_freed_row_is_filled_again(rt: HostRuntime) -> Result<(), Fail> {
        let mut table = ChainTable::new(rt.alloc())?;
        fill(&mut table, 1, 200, 0);
        assert_eq!(rt; table.count(), 200);
        fill(&mut table, 301, 100, 1);
        assert_eq!(rt; table.count(), 256);
        assert_eq!(rt; table.put(900, 0, &[]), Err(PutRefusal::Full));
        assert!(rt; table.remove(20));
        assert_eq!(rt; table.put(900, 0, &[]), Ok(()));
        assert_eq!(rt; table.put(901, 0, &[]), Err(PutRefusal::Full));
        assert_eq!(rt; table.next(Some(0), None, 200), Some(900));
        Ok(())
    }

    #[test]
    fn a_front_fills_its_own_rows_first(rt: HostRuntime) -> Result<(), Fail> {
        let mut table = FrontTable::new(rt.alloc(), ScanTable::new(rt.alloc())?)?;
        fill(&mut table, 1, 20, 0);
        assert!(rt; table.own_count() == 20 && table.count() == 20);
        fill(&mut table, 101, 200, 0);
        assert!(rt; table.own_count() == 32 && table.count() == 220);
        fill(&mut table, 401, 100, 0);
        assert_eq!(rt; table.count(), 288);
        assert!(rt; table.remove(3) && table.own_count() == 31 && table.count() == 287);
        assert_eq!(rt; table.put(900, 0, &[]), Ok(()));
        assert_eq!(rt; table.own_count(), 32);
        assert_eq!(rt; table.put(901, 0, &[]), Err(PutRefusal::Full));
        assert_eq!(rt; table.put(150, 0, &[]), Err(PutRefusal::Twice));
        Ok(())
    }

    #[test]
    fn a_front_of_a_front_holds_320(rt: HostRuntime) -> Result<(), Fail> {
        let front = FrontTable::new(rt.alloc(), ChainTable::new(rt.alloc())?)?;
        let mut table = FrontTable::new(rt.alloc(), front)?;
        keyed(&mut table)?;
        assert!(rt; table.capacity() == 320 && table.count() == 4);
        assert_eq!(rt; table.symbol(12), Some(3));
        assert_eq!(rt; table.argument(12, 1), Some(Operand::Value(7)));
        assert_eq!(rt; table.argument(12, 2), None);
        Ok(())
    }

    #[test]
    fn a_front_of_any_table_is_held(rt: HostRuntime) -> Result<(), Fail> {
        let mut held = Held {
            front: FrontTable::new(rt.alloc(), ScanTable::new(rt.alloc())?)?,
        };
        keyed(&mut held.front)?;
        assert_eq!(rt; held.front.own_count(), 4);
        Ok(())
    }

    #[test]
    fn rows_hold_as_many_as_they_are_made_for(rt: HostRuntime) -> Result<(), Fail> {
        for limit in 0..3 {
            let mut rows = Rows::new(rt.alloc(), limit)?;
            for identifier in 1..=4 {
                let _ = rows.put(identifier, 0, &[]);
            }
            assert_eq!(rt; rows.count(), limit);
            assert_eq!(rt; rows.limit(), limit);
        }
        Ok(())
    }

    #[test]
    fn what_is_no_record_is_unfit(rt: HostRuntime) -> Result<(), Fail> {
        let mut table = ScanTable::new(rt.alloc())?;
        let many = [Operand::Variable(0); 5];
        assert_eq!(rt; table.put(0, 0, &[]), Err(PutRefusal::Unfit));
        assert_eq!(rt; table.put(1_000_001, 0, &[]), Err(PutRefusal::Unfit));
        assert_eq!(rt; table.put(1, 32, &[]), Err(PutRefusal::Unfit));
        assert_eq!(rt; table.put(1, 0, &many), Err(PutRefusal::Unfit));
        assert_eq!(rt;
            table.put(1, 0, &[Operand::Value(1_000_001)]),
            Err(PutRefusal::Unfit)
        );
        assert_eq!(rt; table.count(), 0);
        Ok(())
    }

    fn changes(heap: Global) -> Result<Vec<Change>, AllocError> {
        let mut changes = Vec::new(heap);
        changes.push(Change::Put(5, 1, Vec::new(heap)))?;
        changes.push(Change::Put(2, 1, Vec::new(heap)))?;
        changes.push(Change::Put(5, 0, Vec::new(heap)))?;
        changes.push(Change::Put(4, 1, Vec::new(heap)))?;
        changes.push(Change::Remove(2))?;
        Ok(changes)
    }

    #[test]
    fn the_same_changes_make_tables_alike(rt: HostRuntime) -> Result<(), Fail> {
        let mut scan = ScanTable::new(rt.alloc())?;
        let mut table = FrontTable::new(rt.alloc(), ChainTable::new(rt.alloc())?)?;
        let changes = changes(rt.alloc())?;
        assert!(rt;
            alike(&mut scan, &mut table, changes.as_slice())
                && perform(&mut scan, changes.as_slice())
        );
        let found = visit(rt.alloc(), &table, Some(1), None)?;
        assert_eq!(rt; found.as_slice(), [4, 5].as_slice());
        Ok(())
    }
}
