// Sessions that are drawn.
use crate::rounds::network::{
    DrawnRow, INTERFACES, MEMBERS, NEIGHBORS, PLAN, PORTS, ROUTES, ROWS, TABLES,
};
use anyhow::Result;
use part_cases::draw::Draw;
use sai_chip::Fail;
use std::alloc::Global;
use std::mem::replace;
use swss_types::write_number;

/// A session that is drawn: its script, and the calls at which the chip fails.
#[derive(Drop)]
pub struct Drawn {
    /// The text of the script.
    pub text: Vec<u8>,
    /// The failing calls.
    pub fails: Vec<Fail>,
}

/// A session as far as it is drawn.
#[derive(Drop)]
struct Drawing {
    alloc: Global,
    draw: Draw,
    producers: u64,
    text: Vec<u8>,
    // which of the rows stood at the end of the last round, and which are to stand at the end of this
    stood: Vec<bool>,
    stands: Vec<bool>,
}

/// Draws a session of so many rounds.
pub fn draw_session(alloc: Global, seed: u64, count: u64) -> Result<Drawn> {
    let mut draw = Draw::new(seed);
    let mut drawing = Drawing {
        alloc,
        producers: draw.pick(4).saturating_add(1),
        draw,
        text: Vec::from_slice(alloc, PLAN.as_bytes())?,
        stood: Vec::new(alloc),
        stands: Vec::new(alloc),
    };
    let fails = drawing.draw_fails()?;
    for _ in 0..count {
        drawing.draw_round()?;
    }
    Ok(Drawn {
        text: drawing.text,
        fails,
    })
}

impl Drawing {
    /// Draws up to three calls that fail, among the first of a session.
    fn draw_fails(&mut self) -> Result<Vec<Fail>> {
        let mut fails = Vec::new(self.alloc);
        for number in 0..self.draw.pick(4) {
            let place = self.draw.pick(60).saturating_add(1);
            fails.push(Fail {
                at: number.saturating_mul(60).saturating_add(place),
                after: self.draw.pick(2) == 0,
            })?;
        }
        Ok(fails)
    }

    /// Draws what stands at the end of a round, and writes it.
    fn draw_round(&mut self) -> Result<()> {
        self.stood = replace(&mut self.stands, Vec::new(self.alloc));
        for (_, _, on) in ROWS {
            let may = on.iter().all(|place| is_true(&self.stands, *place));
            let stands = self.draw.pick(8) != 0 && may;
            self.stands.push(stands)?;
        }
        for (number, table) in TABLES.iter().enumerate() {
            self.write_text("producer p")?;
            write_number(&mut self.text, number as u64 % self.producers.max(1))?;
            self.write_text("\n")?;
            self.write_table(table)?;
        }
        self.write_text("settle\n")
    }

    /// Writes the rows of a table.
    fn write_table(&mut self, table: &str) -> Result<()> {
        for (place, row) in ROWS.iter().enumerate() {
            if row.0 == table {
                self.write_row(place, row)?;
            }
        }
        Ok(())
    }

    /// Writes a row as it is to stand in the end, or its end. Sometimes another write comes before, or a restart.
    fn write_row(&mut self, place: usize, row: &DrawnRow) -> Result<()> {
        let stood = is_true(&self.stood, place);
        let another = self.draw.pick(8) == 0;
        if another && self.draw.pick(2) == 0 {
            self.write_del(row)?;
        } else if another {
            self.write_set(row, false)?;
        }
        if self.draw.pick(60) == 0 {
            self.write_text("restart\n")?;
        }
        if is_true(&self.stands, place) {
            // The hops of a route may be others, so it is always written.
            if another || !stood || row.0 == ROUTES || self.draw.pick(4) == 0 {
                self.write_set(row, true)?;
            }
        } else if another || stood {
            self.write_del(row)?;
        }
        Ok(())
    }

    /// Writes that a row is deleted.
    fn write_del(&mut self, row: &DrawnRow) -> Result<()> {
        self.write_key("del ", row)?;
        self.write_text("\n")
    }

    /// Writes that a row is set. Where it is to stand, what it names stands too.
    fn write_set(&mut self, row: &DrawnRow, stands: bool) -> Result<()> {
        self.write_key("set ", row)?;
        match row.0 {
            PORTS => self.write_port(row)?,
            MEMBERS => self.write_one(" tagging_mode=", &["tagged", "untagged"])?,
            INTERFACES => self.write_one(" ", &["NULL=NULL", "scope=global"])?,
            NEIGHBORS => self.write_one(" neigh=02:00:00:00:00:0", &["1", "2", "3"])?,
            ROUTES => self.write_hops(stands)?,
            _ => self.write_one(" a=", &["1", "2"])?,
        }
        self.write_text("\n")
    }

    /// Writes what is set of a port.
    fn write_port(&mut self, row: &DrawnRow) -> Result<()> {
        self.write_text(" lanes=")?;
        self.write_text(row.1.strip_prefix("Ethernet").unwrap_or(row.1))?;
        self.write_one(" mtu=", &["1500", "9100"])?;
        self.write_one(" admin_status=", &["up", "down"])
    }

    /// Writes the hops of a route, which are drawn from the neighbours that are to stand, or from all; or that it has none.
    fn write_hops(&mut self, stands: bool) -> Result<()> {
        let mut hops = String::new(self.alloc);
        let mut names = String::new(self.alloc);
        for (place, row) in ROWS.iter().enumerate() {
            let may = row.0 == NEIGHBORS && (!stands || is_true(&self.stands, place));
            if may
                && self.draw.pick(3) == 0
                && let Some((name, hop)) = row.1.split_once(':')
            {
                add_item(&mut names, name)?;
                add_item(&mut hops, hop)?;
            }
        }
        if hops.is_empty() {
            return self.write_text(" blackhole=true");
        }
        self.write_text(" blackhole=false nexthop=")?;
        self.write_text(hops.as_str())?;
        self.write_text(" ifname=")?;
        self.write_text(names.as_str())
    }

    /// Writes a text, and behind it one of these.
    fn write_one(&mut self, text: &str, any: &[&str]) -> Result<()> {
        self.write_text(text)?;
        let lot = self.draw.pick(any.len() as u64) as usize;
        self.write_text(any.get(lot).copied().unwrap_or_default())
    }

    /// Writes a text, and behind it the key of a row.
    fn write_key(&mut self, text: &str, row: &DrawnRow) -> Result<()> {
        self.write_text(text)?;
        self.write_text(row.0)?;
        self.write_text(":")?;
        self.write_text(row.1)
    }

    /// Writes a text.
    fn write_text(&mut self, text: &str) -> Result<()> {
        self.text.extend_from_slice(text.as_bytes())?;
        Ok(())
    }
}

/// Whether a list is true at a place.
fn is_true(list: &Vec<bool>, place: usize) -> bool {
    list.get(place).copied().unwrap_or(false)
}

/// Appends an item to a list, behind a comma unless it is the first.
fn add_item(list: &mut String, item: &str) -> Result<()> {
    if !list.is_empty() {
        list.push_str(",")?;
    }
    list.push_str(item)?;
    Ok(())
}
