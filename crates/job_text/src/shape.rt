//! What a value is before any number is known.
ghost use Rattle.std.specs.Prelude.{◌≡◌, ◌<◌, ◌≤◌, ◌==◌, ◌||◌, ◌&&◌, if◌then◌else◌};
ghost use Rattle.model_defs.specs.declared.shape.Shape.{Shape};
ghost use Rattle.model_defs.specs.declared.shape.Sort.TheVariants.{Vector, Parts, Matrix, Split};
ghost use Rattle.model_defs.specs.Shapes.{dense_shape, moved_shape, is_dense, is_split_sort, no_shape};
ghost use Rattle.job_text.specs.Sorts.{is_matrix, is_parts, is_vector};

use std::marker::Model;

/// The sort of a value.
#[derive(Clone, Copy, Debug)]
enum Sort {
    Vector,
    Parts,
    Matrix,
    Split,
}

/// A value's sort, its maps by their numbers, its columns, and the number of the matrix whose structure it shares.
/// Contracts see it as the shape of the value.
#[derive(Debug, Drop)]
pub struct Shape {
    sort: Sort,
    rows: u32,
    domain: u32,
    columns: u32,
    structure: u32,
}

impl Model for Shape {
    ghost use Rattle.model_defs.specs.declared.shape.Shape.{Shape};
    ghost use Rattle.job_text.specs.ShapeFields.{sort_seen};

    ghost Value = { Shape };

    ghost view = { λ s. record { sort = sort_seen s.sort; rows = s.rows; domain = s.domain; columns = s.columns; structure = s.structure } };
}

impl Shape {
    /// In place of a shape that is not there.
    pub fn none() -> Shape
        ensures { result ≡ no_shape }
    {
        Shape {
            sort: Sort::Vector,
            rows: 0,
            domain: 0,
            columns: 0,
            structure: 0,
        }
    }

    /// Value `number`, a vector on a map.
    pub fn vector(number: u32, map: u32, columns: u32) -> Shape
        ensures { result ≡ dense_shape number Vector map columns }
    {
        Shape {
            sort: Sort::Vector,
            rows: map,
            domain: map,
            columns,
            structure: number,
        }
    }

    /// Value `number`, parts on a map.
    pub fn parts(number: u32, map: u32, columns: u32) -> Shape
        ensures { result ≡ dense_shape number Parts map columns }
    {
        Shape {
            sort: Sort::Parts,
            rows: map,
            domain: map,
            columns,
            structure: number,
        }
    }

    /// Value `number`, a matrix of a file.
    pub fn matrix(number: u32, split: bool, rows: u32, domain: u32) -> Shape
        ensures { result ≡ record { sort = if split then Split else Matrix; rows = rows; domain = domain; columns = 0; structure = number } }
    {
        let sort = if split { Sort::Split } else { Sort::Matrix };
        Shape {
            sort,
            rows,
            domain,
            columns: 0,
            structure: number,
        }
    }

    /// The same shape.
    pub fn copy(&self) -> Shape
        ensures { result ≡ self.now }
    {
        Shape {
            sort: self.sort,
            rows: self.rows,
            domain: self.domain,
            columns: self.columns,
            structure: self.structure,
        }
    }

    pub fn is_vector(&self) -> bool
        ensures { result ≡ is_vector self.now.sort }
    {
        matches!(self.sort, Sort::Vector)
    }

    pub fn is_parts(&self) -> bool
        ensures { result ≡ is_parts self.now.sort }
    {
        matches!(self.sort, Sort::Parts)
    }

    pub fn is_matrix(&self) -> bool
        ensures { result ≡ is_matrix self.now.sort }
    {
        matches!(self.sort, Sort::Matrix)
    }

    pub fn is_split(&self) -> bool
        ensures { result ≡ is_split_sort self.now.sort }
    {
        matches!(self.sort, Sort::Split)
    }

    /// The number of the map, of a matrix of its row map.
    pub fn rows(&self) -> u32
        ensures { result ≡ self.now.rows }
    {
        self.rows
    }

    /// The number of the domain map.
    pub fn domain(&self) -> u32
        ensures { result ≡ self.now.domain }
    {
        self.domain
    }

    pub fn columns(&self) -> u32
        ensures { result ≡ self.now.columns }
    {
        self.columns
    }

    /// Value `number`, this one on another map.
    pub fn moved(&self, number: u32, map: u32) -> Shape
        ensures { result ≡ moved_shape number self.now map }
    {
        let structure = if self.rows == map {
            self.structure
        } else {
            number
        };
        Shape {
            sort: self.sort,
            rows: map,
            domain: self.domain,
            columns: self.columns,
            structure,
        }
    }

    /// Parts on a map, of this vector.
    pub fn spread(&self, map: u32) -> Shape
        ensures { result ≡ record self.now { sort = Parts; rows = map } }
    {
        Shape {
            sort: Sort::Parts,
            rows: map,
            domain: self.domain,
            columns: self.columns,
            structure: self.structure,
        }
    }

    /// This vector, on another map.
    pub fn on(&self, map: u32) -> Shape
        ensures { result ≡ record self.now { rows = map } }
    {
        Shape {
            sort: self.sort,
            rows: map,
            domain: self.domain,
            columns: self.columns,
            structure: self.structure,
        }
    }

    /// Value `number`, a matrix of this sort on a row map and a domain map.
    pub fn on_maps(&self, number: u32, rows: u32, domain: u32) -> Shape
        ensures { result ≡ record self.now { rows = rows; domain = domain; structure = number } }
    {
        Shape {
            sort: self.sort,
            rows,
            domain,
            columns: self.columns,
            structure: number,
        }
    }

    /// Value `number`, an assembled matrix on the maps of this one.
    pub fn assembled(&self, number: u32) -> Shape
        ensures { result ≡ record self.now { sort = Matrix; structure = number } }
    {
        Shape {
            sort: Sort::Matrix,
            rows: self.rows,
            domain: self.domain,
            columns: self.columns,
            structure: number,
        }
    }
}
