// Where the cases of each type were declared.
ghost use Rattle.std.specs.Prelude.{◌≡◌, ◌<◌, ◌^◌, ◌+◌, ◌++◌, ◌∷◌, [], length, take, slice_get, OnOk};
ghost use Rattle.case_places.specs.Places.{places_of};

use http_server::Log;
use std::alloc::Global;
use std::marker::Model;
use wsm_lists::NoMemory;
use wsm_sound::CaseId;

/// For each type where its cases were declared, counting all cases from 0.
#[derive(Drop)]
pub struct CasePlaces {
    kinds: Vec<Vec<u32>>,
    count: u32,
    types: Log<u32, ()>,
}

impl Model for CasePlaces {
    ghost use Rattle.std.specs.Prelude.{◌≡◌, ◌<◌, ◌^◌, length, map};
    ghost use Rattle.case_places.specs.Places.{AreRows, Placed};

    ghost Value = { Placed };

    ghost view = { λ a. record { kinds = length a.kinds.items; types = map (λ p. p.0) a.types.items } };

    ghost invariant = { λ a. AreRows (map (λ v. v.items) a.kinds.items) (map (λ p. p.0) a.types.items) × (a.count ≡ length a.types.items) × (length a.kinds.items < 2 ^ 32) };
}

impl CasePlaces {
    /// No type.
    pub fn new(alloc: Global) -> CasePlaces
        ensures { result ≡ record { kinds = 0; types = [] } }
    {
        CasePlaces {
            kinds: Vec::new(alloc),
            count: 0,
            types: Log::new(),
        }
    }

    /// One more type, of which there are no cases.
    pub fn add_kind(&mut self, alloc: Global) -> Result<(), NoMemory>
        requires { self.old.kinds + 1 < 2 ^ 32 }
        ensures { OnOk result (self.new ≡ record { kinds = self.old.kinds + 1; types = self.old.types }) }
    {
        self.kinds.push(Vec::new(alloc))?;
        Ok(())
    }

    /// One more case, of a type that is there.
    pub fn add_case(&mut self, type_no: u32) -> Result<(), NoMemory>
        requires there { type_no < self.old.kinds }
        requires room { length self.old.types + 1 < 2 ^ 32 }
        ensures { OnOk result (self.new ≡ record { kinds = self.old.kinds; types = self.old.types ++ type_no ∷ [] }) }
    {
        self.kinds[type_no as usize].push(self.count)?;
        self.count += 1;
        self.types = self.types.and(&type_no, &());
        Ok(())
    }

    /// Where the cases of a type were declared.
    pub fn of_kind(&self, type_no: u32) -> &[u32]
        ensures { result.now ≡ places_of type_no self.now.types }
    {
        match self.kinds.get(type_no as usize) {
            None => &[],
            Some(places) => places,
        }
    }

    /// Where the first so many cases of a type were declared.
    #[tactic(auto, using(std::proofs::lemmas::List::take_min))]
    pub fn first_of_kind(&self, type_no: u32, many: u32) -> &[u32]
        ensures { result.now ≡ take many (places_of type_no self.now.types) }
    {
        let places = self.of_kind(type_no);
        let (first, _) = places.split_at((many as usize).min(places.len()));
        first
    }

    /// Where a case was declared.
    pub fn of_case(&self, id: CaseId) -> Option<u32>
        ensures { result ≡ slice_get (places_of id.type_no self.now.types) id.place }
    {
        self.of_kind(id.type_no).get(id.place as usize).copied()
    }
}
